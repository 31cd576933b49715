use crate::{CONFIG_LIMIT, Config, ConfigRefused, Key};
use std::test::Fail;

// The written texts are those of Python's json, with sorted keys and without blanks.
#[test]
fn a_configuration_is_written_with_all_members_and_reads_back(rt: HostRuntime) -> Result<(), Fail> {
    let alloc = rt.alloc();
    let cases: [(&[u8], &[u8]); 2] = [
        (
            b"{\"lanes\":4,\"policies\":[{\"dst\":2,\"id\":1,\"name\":\"p\",\
            \"namespace\":\"ns\",\"replace\":-1,\"src\":1}],\
            \"registries\":[{\"at\":\"src.txt\",\"id\":1,\"kind\":\"memory\"},{\"at\":\"\",\
            \"id\":2,\"kind\":\"memory\"}],\"version\":1}",
            b"{\"jobs\":16384,\"keep\":50,\"lanes\":4,\"policies\":[{\"attempts\":3,\"dst\":2,\
            \"enabled\":true,\"filters\":[],\"id\":1,\"name\":\"p\",\"namespace\":\"ns\",\
            \"override\":true,\"replace\":-1,\"src\":1,\"trigger\":\"manual\"}],\
            \"registries\":[{\"at\":\"src.txt\",\"id\":1,\"kind\":\"memory\"},{\"at\":\"\",\
            \"id\":2,\"kind\":\"memory\"}],\"version\":1}",
        ),
        (
            b"{\"version\":1,\"lanes\":64,\"jobs\":1,\"keep\":0,\"x\":[1.5],\
            \"registries\":[{\"id\":250,\"kind\":\"http\",\"at\":\"http://h.example:5000/\"},\
            {\"id\":1,\"kind\":\"folder\",\"at\":\"a/b\"},{\"id\":2,\"kind\":\"memory\",\
            \"at\":\"\"}],\"policies\":[{\"id\":4294967295,\"name\":\"p\\n\",\
            \"enabled\":false,\"src\":250,\"dst\":1,\"namespace\":\"\",\"replace\":3,\
            \"override\":false,\"attempts\":1,\"trigger\":{\"cron\":\"0 0 * * * *\"},\
            \"filters\":[{\"kind\":\"name\",\"value\":\"library/**\"},{\"kind\":\"tag\",\
            \"value\":\"\"},{\"kind\":\"tag\",\"value\":\"v{1,2}?\",\
            \"decoration\":\"excludes\"},{\"kind\":\"label\",\"value\":[\"a\",\"\\u00e9\"]},\
            {\"kind\":\"resource\",\"value\":\"artifact\",\"decoration\":\"matches\"}]}]}",
            b"{\"jobs\":1,\"keep\":0,\"lanes\":64,\"policies\":[{\"attempts\":1,\"dst\":1,\
            \"enabled\":false,\"filters\":[{\"decoration\":\"matches\",\"kind\":\"name\",\
            \"value\":\"library/**\"},{\"decoration\":\"excludes\",\"kind\":\"tag\",\
            \"value\":\"v{1,2}?\"},{\"decoration\":\"matches\",\"kind\":\"label\",\
            \"value\":[\"a\",\"\xc3\xa9\"]},{\"decoration\":\"matches\",\"kind\":\"resource\",\
            \"value\":\"image\"}],\"id\":4294967295,\"name\":\"p\\n\",\"namespace\":\"\",\
            \"override\":false,\"replace\":3,\"src\":250,\
            \"trigger\":{\"cron\":\"0 0 * * * *\"}}],\
            \"registries\":[{\"at\":\"http://h.example:5000/\",\"id\":250,\"kind\":\"http\"},\
            {\"at\":\"a/b\",\"id\":1,\"kind\":\"folder\"},{\"at\":\"\",\"id\":2,\
            \"kind\":\"memory\"}],\"version\":1}",
        ),
    ];
    for (text, expected) in cases {
        let Ok(config) = Config::read(alloc, text) else {
            panic!(rt; "refused: {text:?}");
        };
        let written = config.write(alloc)?;
        assert_eq!(rt; written.view(), expected);
        let again = Config::read(alloc, written.view());
        assert_eq!(rt; again, Ok(config));
    }
    Ok(())
}

#[test]
fn the_first_fault_is_told_with_its_place(rt: HostRuntime) -> Result<(), Fail> {
    let alloc = rt.alloc();
    let cases: [(&[u8], ConfigRefused); 14] = [
        (b"[]", ConfigRefused::NotJson),
        (
            b"{\"version\":2,\"lanes\":0}",
            ConfigRefused::Field {
                policy: 0,
                name: Key::Version,
            },
        ),
        (
            b"{\"version\":1,\"lanes\":0,\"jobs\":0}",
            ConfigRefused::Field {
                policy: 0,
                name: Key::Lanes,
            },
        ),
        (
            b"{\"version\":1,\"registries\":[{\"at\":\"a//b\",\"id\":1,\"kind\":\"folder\"}],\
            \"policies\":[{\"id\":0,\"name\":\"\",\"src\":1,\"dst\":2}]}",
            ConfigRefused::Field {
                policy: 0,
                name: Key::At,
            },
        ),
        (
            b"{\"version\":1,\"registries\":[{\"at\":\"http://a/b\",\"id\":1,\
            \"kind\":\"http\"}],\"policies\":[]}",
            ConfigRefused::Field {
                policy: 0,
                name: Key::At,
            },
        ),
        (
            b"{\"version\":1,\"registries\":[{\"at\":\"\",\"id\":1,\"kind\":\"memory\"}],\
            \"policies\":[{\"id\":7,\"name\":\"\",\"src\":0,\"dst\":0,\"namespace\":\"a/\"}]}",
            ConfigRefused::Field {
                policy: 7,
                name: Key::Src,
            },
        ),
        (
            b"{\"version\":1,\"registries\":[{\"at\":\"\",\"id\":1,\"kind\":\"memory\"}],\
            \"policies\":[{\"id\":7,\"name\":\"\",\"src\":1,\"dst\":1,\"namespace\":\"a/\"}]}",
            ConfigRefused::Field {
                policy: 7,
                name: Key::Namespace,
            },
        ),
        (
            b"{\"version\":1,\"registries\":[{\"at\":\"\",\"id\":1,\"kind\":\"memory\"}],\
            \"policies\":[{\"id\":7,\"name\":\"\",\"src\":1,\"dst\":1,\
            \"trigger\":{\"cron\":\"0 60 * * * *\"}}]}",
            ConfigRefused::Field {
                policy: 7,
                name: Key::Trigger,
            },
        ),
        (
            b"{\"version\":1,\"registries\":[{\"at\":\"\",\"id\":1,\"kind\":\"memory\"}],\
            \"policies\":[{\"id\":7,\"name\":\"\",\"src\":1,\"dst\":1,\
            \"filters\":[{\"kind\":\"resource\",\"value\":\"image\",\
            \"decoration\":\"excludes\"}]}]}",
            ConfigRefused::Field {
                policy: 7,
                name: Key::Decoration,
            },
        ),
        (
            b"{\"version\":1,\"registries\":[{\"at\":\"\",\"id\":1,\"kind\":\"memory\"},\
            {\"at\":\"\",\"id\":1,\"kind\":\"memory\"}],\"policies\":[{\"id\":7,\"name\":\"\",\
            \"src\":1,\"dst\":1}]}",
            ConfigRefused::Repeated { id: 1 },
        ),
        (
            b"{\"version\":1,\"registries\":[{\"at\":\"\",\"id\":1,\"kind\":\"memory\"},\
            {\"at\":\"\",\"id\":2,\"kind\":\"memory\"}],\"policies\":[{\"id\":7,\"name\":\"\",\
            \"src\":1,\"dst\":3},{\"id\":7,\"name\":\"\",\"src\":1,\"dst\":1}]}",
            ConfigRefused::Repeated { id: 7 },
        ),
        (
            b"{\"version\":1,\"registries\":[{\"at\":\"\",\"id\":1,\"kind\":\"memory\"},\
            {\"at\":\"\",\"id\":2,\"kind\":\"memory\"}],\"policies\":[{\"id\":7,\"name\":\"\",\
            \"src\":1,\"dst\":1},{\"id\":8,\"name\":\"\",\"src\":3,\"dst\":1}]}",
            ConfigRefused::Unknown { reg: 3 },
        ),
        (
            b"{\"version\":1,\"registries\":[{\"at\":\"\",\"id\":1,\"kind\":\"memory\"},\
            {\"at\":\"\",\"id\":2,\"kind\":\"memory\"}],\"policies\":[{\"id\":6,\"name\":\"\",\
            \"src\":1,\"dst\":2},{\"id\":8,\"name\":\"\",\"src\":2,\"dst\":2}]}",
            ConfigRefused::SameRegistry { policy: 8 },
        ),
        (
            b"{\"version\":1,\"registries\":[{\"at\":\"\",\"id\":1,\"kind\":\"memory\"},\
            {\"at\":\"\",\"id\":2,\"kind\":\"memory\"},{\"at\":\"\",\"id\":3,\
            \"kind\":\"memory\"}],\"policies\":[{\"id\":1,\"name\":\"\",\"src\":1,\"dst\":2},\
            {\"id\":2,\"name\":\"\",\"src\":2,\"dst\":3}]}",
            ConfigRefused::Chain { reg: 2 },
        ),
    ];
    for (text, refused) in cases {
        assert_eq!(rt; Config::read(alloc, text).err(), Some(refused), "{text:?}");
    }
    let long = vec![in alloc; b' '; CONFIG_LIMIT + 1]?;
    let refused = Config::read(alloc, long.as_slice()).err();
    assert_eq!(rt; refused, Some(ConfigRefused::TooLong { len: 1_048_577 }));
    Ok(())
}

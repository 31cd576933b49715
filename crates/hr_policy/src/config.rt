//! What a configuration says: registries, and the policies by which one is copied to another.
//! (Our own, after Harbor's.)

use hr_base::{Bytes, List, PolicyNo, RegNo};
use hr_filter::Filter;
use hr_name::Name;

/// What a registry is.
#[derive(Clone, Copy, Debug, PartialEq, Eq)]
pub enum Kind {
    /// It is made of the setup lines of a file, and kept in memory.
    Memory,
    /// It lies in a folder.
    Folder,
    /// It is asked by HTTP.
    Http,
}

/// A registry, and where it lies.
#[derive(Debug, Drop, PartialEq, Eq)]
pub struct RegAt {
    /// 1 to 250.
    pub id: RegNo,
    pub kind: Kind,
    /// The path of a file of setup lines, or empty, for memory; the path of a folder, or empty for
    /// the top; the base address, for HTTP. A text in UTF-8.
    pub at: Bytes,
}

/// A policy: what is copied from where to where, and when.
#[derive(Debug, Drop, PartialEq, Eq)]
pub struct Policy {
    /// From 1.
    pub id: PolicyNo,
    /// A text in UTF-8 of at most 255 bytes.
    pub name: Bytes,
    /// Whether it runs at all.
    pub enabled: bool,
    pub src: RegNo,
    pub dst: RegNo,
    /// What the names at the destination begin with.
    pub namespace: Option<Name>,
    /// How many leading components of a name the namespace replaces, 0 to 3; or -1 for all but the
    /// last one.
    pub replace: i8,
    /// Whether a tag that names another manifest at the destination is changed.
    pub override_it: bool,
    /// How many attempts each job has, 1 to 4.
    pub attempts: u8,
    /// The text of a schedule, which `Cron::read` reads, or none for a policy that only a trigger
    /// starts.
    pub cron: Option<Bytes>,
    /// At most 16, which a tag has to meet all.
    pub filters: List<Filter>,
}

/// A whole configuration.
#[derive(Debug, Drop, PartialEq, Eq)]
pub struct Config {
    /// 1 to 64.
    pub lanes: u8,
    /// How many jobs there may be, 1 to 262,144.
    pub jobs: u32,
    /// How many ended executions of a policy are kept, 0 to 1,000,000.
    pub keep: u32,
    /// At most 64.
    pub registries: List<RegAt>,
    /// At most 1,024.
    pub policies: List<Policy>,
}

/// What an engine is set up with: a configuration, or what a script says in its place, without where
/// the registries lie.
#[derive(Debug, Drop, PartialEq, Eq)]
pub struct Setup {
    /// 1 to 64.
    pub lanes: u8,
    /// How many jobs there may be, 1 to 262,144.
    pub jobs: u32,
    pub registries: List<RegNo>,
    pub policies: List<Policy>,
}

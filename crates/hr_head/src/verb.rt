//! The methods of requests that this project knows (RFC 9110, section 9; RFC 5789 for `PATCH`).
ghost use Rattle.hr_head.specs.Verb.{IsVerb};

/// The method of a request.
#[derive(Clone, Copy, Debug, PartialEq, Eq)]
pub enum Verb {
    Get,
    Head,
    Post,
    Put,
    Patch,
    Delete,
    /// Any other token, also one of these in other letters.
    Other,
}

/// The verb that a method names.
pub(crate) fn verb_of(method: &[u8]) -> Verb
    ensures { IsVerb method.now result }
{
    match method {
        b"GET" => Verb::Get,
        b"HEAD" => Verb::Head,
        b"POST" => Verb::Post,
        b"PUT" => Verb::Put,
        b"PATCH" => Verb::Patch,
        b"DELETE" => Verb::Delete,
        _ => Verb::Other,
    }
}

//! Where the reading of a body stands (RFC 9112, sections 6.3 and 7.1).

/// How many bytes a line that gives the size of a chunk has at most, its end counted, and how many
/// a trailer section has. (Our own.)
pub const LINE_LIMIT: u32 = 65_536;

/// A part of a line that gives the size of a chunk, or of the trailer section (RFC 9112, sections
/// 7.1, 7.1.1 and 7.1.2).
#[derive(Clone, Copy, Debug, PartialEq, Eq)]
pub enum Part {
    /// The size: so many digits, at most 16, and their value so far.
    Size { count: u8, value: u64 },
    /// Blanks behind the size.
    Blank { value: u64 },
    /// The extension behind the size.
    Extension { value: u64 },
    /// Behind the carriage return of a size line.
    SizeFeed { value: u64 },
    /// At the beginning of a field line, or of the empty line behind the last one.
    FieldStart,
    /// The name of a field.
    FieldName,
    /// The value of a field.
    FieldValue,
    /// Behind the carriage return of a field line.
    FieldFeed,
    /// Behind the carriage return of the empty line.
    LastFeed,
}

/// A place among the bytes of the chunked coding that are no data.
#[derive(Clone, Copy, Debug, PartialEq, Eq)]
pub enum Coding {
    /// In a line, or in the trailer section, which may have `room` bytes more.
    Line { room: u32, part: Part },
    /// At the line end behind the data of a chunk.
    DataEnd,
    /// Behind its carriage return.
    DataFeed,
}

/// Where the reading of a body stands.
#[derive(Clone, Copy, Debug, PartialEq, Eq)]
pub enum Stage {
    /// Between the data of chunks.
    Between(Coding),
    /// In the data of a chunk, of which a byte is to come, and `more` behind it.
    Chunk { more: u64 },
    /// In a body of a known length, of which a byte is to come, and `more` behind it.
    Sized { more: u64 },
    /// In a body that goes to the end of the device.
    ToEnd,
    /// At the body's end.
    Done,
}

//! The shape of a file: how many fields its records have, found without keeping any.
//!
//! The crate `csv` keeps a record whole before it can say how long it is. So this reading comes
//! first: it follows the
//! crate's machine byte by byte and counts, and a file with too much in it is refused by its shape,
//! in no memory. The
//! one way in is `shape_of`.
ghost use Rattle.std.specs.Prelude.{◌≡◌, ◌<◌, ◌≤◌, ◌^◌, ◌+◌, ◌-◌, ◌∷◌, List, ℕ};
ghost use Rattle.csv.specs.Machine.{ends_at_end, in_field, start_field, start_record, step};
ghost use Rattle.csv.specs.Reading.{default_config, strip_bom};
ghost use Rattle.csv_tables.specs.Reading.{records_of};
ghost use Rattle.csv_tables.specs.Shapes.{IsShape, end_of, state_at};
ghost use Rattle.csv_tables.specs.Tallies.{noted, total_of};

/// Where in a record the scan stands.
#[derive(Clone, Copy, Debug, PartialEq, Eq)]
enum ScanState {
    StartRecord,
    StartField,
    InField,
    InQuoted,
    AfterQuote,
    AfterReturn,
}

/// What a byte ends.
#[derive(Clone, Copy, Debug, PartialEq, Eq)]
enum End {
    Nothing,
    Field,
    Record,
}

/// How long the records of a file are: the fields of the header, where there is one, the number of
/// data rows, and the
/// first of those that isn't as long as the header.
#[derive(Clone, Copy, Debug)]
pub(crate) struct Shape {
    pub(crate) column_count: Option<usize>,
    pub(crate) row_count: usize,
    pub(crate) uneven: Option<usize>,
}

/// A byte within a field without quotes.
fn after_plain(byte: u8) -> (ScanState, End)
    ensures state { state_at result.0 ≡ (in_field default_config byte).0 }
    ensures end { result.1 ≡ end_of (in_field default_config byte).1 }
{
    match byte {
        b',' => (ScanState::StartField, End::Field),
        b'\r' => (ScanState::AfterReturn, End::Record),
        b'\n' => (ScanState::StartRecord, End::Record),
        _ => (ScanState::InField, End::Nothing),
    }
}

/// A byte at the start of a field.
fn after_field_start(byte: u8) -> (ScanState, End)
    ensures state { state_at result.0 ≡ (start_field default_config byte).0 }
    ensures end { result.1 ≡ end_of (start_field default_config byte).1 }
{
    if byte == b'"' {
        return (ScanState::InQuoted, End::Nothing);
    }
    after_plain(byte)
}

/// A byte at the start of a record: blank lines are no records.
fn after_record_start(byte: u8) -> (ScanState, End)
    ensures state { state_at result.0 ≡ (start_record default_config byte).0 }
    ensures end { result.1 ≡ end_of (start_record default_config byte).1 }
{
    if byte == b'\r' {
        return (ScanState::StartRecord, End::Nothing);
    }
    if byte == b'\n' {
        return (ScanState::StartRecord, End::Nothing);
    }
    after_field_start(byte)
}

/// Where a byte leads, and what it ends.
fn after_byte(state: ScanState, byte: u8) -> (ScanState, End)
    ensures state { state_at result.0 ≡ (step default_config (state_at state) byte).0 }
    ensures end { result.1 ≡ end_of (step default_config (state_at state) byte).1 }
{
    match state {
        ScanState::StartRecord => after_record_start(byte),
        ScanState::StartField => after_field_start(byte),
        ScanState::InField => after_plain(byte),
        ScanState::InQuoted => {
            if byte == b'"' {
                return (ScanState::AfterQuote, End::Nothing);
            }
            (ScanState::InQuoted, End::Nothing)
        }
        ScanState::AfterQuote => {
            if byte == b'"' {
                return (ScanState::InQuoted, End::Nothing);
            }
            after_plain(byte)
        }
        ScanState::AfterReturn => {
            if byte == b'\n' {
                return (ScanState::StartRecord, End::Nothing);
            }
            after_record_start(byte)
        }
    }
}

/// Whether the end of a file ends a record.
fn is_inside(state: ScanState) -> bool
    ensures { result ≡ ends_at_end (state_at state) }
{
    match state {
        ScanState::StartRecord => false,
        ScanState::AfterReturn => false,
        ScanState::StartField => true,
        ScanState::InField => true,
        ScanState::InQuoted => true,
        ScanState::AfterQuote => true,
    }
}

impl Shape {
    /// The shape with a record more, of so many fields.
    fn with(self, field_count: usize) -> Shape
        requires { self.row_count < 2 ^ 64 - 1 }
        ensures { result ≡ noted self field_count }
    {
        match self.column_count {
            None => Shape {
                column_count: Some(field_count),
                row_count: 0,
                uneven: None,
            },
            Some(column_count) => {
                let row_count = self.row_count + 1;
                let uneven = if field_count == column_count {
                    None
                } else {
                    Some(row_count)
                };
                Shape {
                    column_count: Some(column_count),
                    row_count,
                    uneven: self.uneven.or(uneven),
                }
            }
        }
    }
}

/// The bytes without a byte order mark at their start.
fn without_mark(bytes: &[u8]) -> &[u8]
    ensures { result.now ≡ strip_bom bytes.now }
{
    match bytes.strip_prefix(b"\xef\xbb\xbf") {
        Some(rest) => rest,
        None => bytes,
    }
}

/// What was counted up to a byte: the records before it, its state, and the fields that ended
/// before it in its record.
#[derive(Clone, Copy, Debug)]
struct Count {
    shape: Shape,
    state: ScanState,
    field_count: usize,
}

impl Count {
    /// The count with a byte more.
    fn with(self, byte: u8) -> Count
        requires rows { self.shape.row_count < 2 ^ 64 - 1 }
        requires fields { self.field_count < 2 ^ 64 - 1 }
        ensures total { (rest : List ℕ) → total_of result rest ≡ total_of self (byte ∷ rest) }
        ensures rows { result.shape.row_count ≤ self.shape.row_count + 1 }
        ensures fields { result.field_count ≤ self.field_count + 1 }
    {
        // Most bytes stand within a field and end nothing: no byte above a comma does.
        if self.state == ScanState::InField && byte > b',' {
            return self;
        }
        let (state, end) = after_byte(self.state, byte);
        match end {
            End::Nothing => Count {
                shape: self.shape,
                state,
                field_count: self.field_count,
            },
            End::Field => Count {
                shape: self.shape,
                state,
                field_count: self.field_count + 1,
            },
            End::Record => Count {
                shape: self.shape.with(self.field_count + 1),
                state,
                field_count: 0,
            },
        }
    }
}

/// The shape of a file. It takes no memory.
pub(crate) fn shape_of(bytes: &[u8]) -> Shape
    ensures { IsShape (records_of bytes.now) result }
{
    let mut count = Count {
        shape: Shape {
            column_count: None,
            row_count: 0,
            uneven: None,
        },
        state: ScanState::StartRecord,
        field_count: 0,
    };
    let bytes = without_mark(bytes);
    for byte in bytes {
        count = count.with(*byte);
    }
    if is_inside(count.state) {
        return count.shape.with(count.field_count + 1);
    }
    count.shape
}

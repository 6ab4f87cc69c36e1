// The format of a match index, by its mark (document 01, "Notes file"). Every reader takes the width of a field, the longest chunk and whether there
// are sets from here.
#![tactic(auto)]

ghost use Rattle.std.specs.Prelude.{◌≡◌};
ghost use Rattle.spec.specs.Form.{form1, form2, newest, form_of, format_of};

// Document 01's format: mark 44 4D 31 0A, fields of 2 bytes, chunks of at most 65,535 bytes.
fn first() -> spec::Format
    ensures { result ≡ format_of form1 }
{
    spec::Format {
        number: 1,
        width: 2,
        longest: 65535,
        sets: false,
    }
}

// Request #105's format: mark 44 4D 32 0A, fields of 3 bytes, chunks of at most 1,048,576 bytes.
fn second() -> spec::Format
    ensures { result ≡ format_of form2 }
{
    spec::Format {
        number: 2,
        width: 3,
        longest: 1048576,
        sets: false,
    }
}

// The format that a scan writes, request #108's: mark 44 4D 33 0A, the fields and chunks of the second, and sets of inner starts.
fn latest() -> spec::Format
    ensures { result ≡ format_of newest }
{
    spec::Format {
        number: 3,
        sets: true,
        ..second()
    }
}

// The format that the index's mark names. With a mark that names none it is the newest, by which the index check then refuses.
#[tactic(auto, unfolding(spec::specs::Form::form_of))]
pub fn of(index: &[u8]) -> spec::Format
    ensures { result ≡ format_of (form_of index.now) }
{
    if index.len() < 4 {
        latest()
    } else if field::equal(&index[..4], &[0x44, 0x4D, 0x31, 0x0A]) {
        first()
    } else if field::equal(&index[..4], &[0x44, 0x4D, 0x32, 0x0A]) {
        second()
    } else {
        latest()
    }
}

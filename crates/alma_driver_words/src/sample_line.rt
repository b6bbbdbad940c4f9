// The lines of a sample, a function each form.
ghost use Rattle.std.specs.Prelude.{◌≡◌, ◌++◌, flat_map, OnOk};
ghost use Rattle.alma_driver_words.specs.Sample.{line_of, form_line, assign_line, either_line, forall_line, commit_line};

use alma_base::NoMemory;
use itoa::Buffer;

/// Appends texts, one behind the other.
pub fn push_texts(text: &mut Vec<u8>, parts: &[&[u8]]) -> Result<(), NoMemory>
    ensures { OnOk result
        (text.new.items ≡ text.old.items ++ flat_map (λ part. part.now) parts.now) }
{
    for part in parts {
        text.extend_from_slice(part)?;
    }
    Ok(())
}

// An assignment.
fn push_assign(text: &mut Vec<u8>, cell: &[u8], value: &[u8]) -> Result<(), NoMemory>
    ensures { OnOk result (text.new.items ≡ text.old.items ++ assign_line cell.now value.now) }
{
    push_texts(text, &[b"v[", cell, b"] := ", value, b";\n"])
}

// A choice between a test and an assignment.
fn push_either(text: &mut Vec<u8>, cell: &[u8], value: &[u8]) -> Result<(), NoMemory>
    ensures { OnOk result (text.new.items ≡ text.old.items ++ either_line cell.now value.now) }
{
    push_texts(
        text,
        &[
            b"EITHER v[",
            cell,
            b"] = ",
            value,
            b" ORELSE v[",
            cell,
            b"] := ",
            value,
            b" END;\n",
        ],
    )
}

// An assignment for every alternative.
fn push_forall(text: &mut Vec<u8>, cell: &[u8], value: &[u8]) -> Result<(), NoMemory>
    ensures { OnOk result (text.new.items ≡ text.old.items ++ forall_line cell.now value.now) }
{
    push_texts(
        text,
        &[
            b"FORALL SOME n := 0 TO ",
            value,
            b" DO TRUE END DO v[",
            cell,
            b"] := n END;\n",
        ],
    )
}

// A choice that is cut.
fn push_commit(text: &mut Vec<u8>, cell: &[u8], value: &[u8]) -> Result<(), NoMemory>
    ensures { OnOk result (text.new.items ≡ text.old.items ++ commit_line cell.now value.now) }
{
    push_texts(
        text,
        &[
            b"COMMIT SOME n := 0 TO ",
            value,
            b" DO v[",
            cell,
            b"] := n END END;\n",
        ],
    )
}

// The line of a form.
fn push_form(text: &mut Vec<u8>, form: u32, cell: &[u8], value: &[u8]) -> Result<(), NoMemory>
    ensures { OnOk result (text.new.items ≡ text.old.items ++ form_line form cell.now value.now) }
{
    match form {
        0 => push_assign(text, cell, value),
        1 => push_either(text, cell, value),
        2 => push_forall(text, cell, value),
        _ => push_commit(text, cell, value),
    }
}

/// Appends the line of a number.
pub fn push_line(text: &mut Vec<u8>, number: u32) -> Result<(), NoMemory>
    ensures { OnOk result (text.new.items ≡ text.old.items ++ line_of number) }
{
    let mut cell_digits = Buffer::new();
    let mut value_digits = Buffer::new();
    let cell = cell_digits.format(number / 256 % 100);
    let value = value_digits.format(number / 16 % 9);
    push_form(text, number / 65_536 % 4, cell.as_bytes(), value.as_bytes())
}

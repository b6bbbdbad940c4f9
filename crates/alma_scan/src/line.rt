// Lines and columns of a source.
ghost use Rattle.std.specs.Prelude.{◌≡◌, ◌≤◌, length};
ghost use Rattle.alma_base.specs.Limits.{source_limit};
ghost use Rattle.alma_scan.specs.Places.{line_at, column_at};

use alma_base::Place;

/// The line and the column of an offset, both counted from 1; the column counts bytes.
pub fn place(source: &[u8], offset: usize) -> Place
    requires inside { offset ≤ length source.now }
    requires size { length source.now ≤ source_limit }
    ensures line { result.line ≡ line_at source.now offset }
    ensures column { result.column ≡ column_at source.now offset }
{
    let mut place = Place { line: 1, column: 1 };
    for byte in &source[..offset] {
        if *byte == b'\n' {
            place.line += 1;
            place.column = 1;
        } else {
            place.column += 1;
        }
    }
    place
}

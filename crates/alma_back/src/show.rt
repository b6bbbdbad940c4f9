// What the lines of a script show.
ghost use Rattle.std.specs.Prelude.{◌≡◌, ◌≤◌, ◌<◌, ◌+◌, ◌*◌, OnOk};
ghost use Rattle.alma_back.specs.Inner.{AreWalkable, IsShort, Shows, line_of, lines_of};
ghost use Rattle.alma_back.specs.Script.{greatest_count};
ghost use Rattle.alma_back.specs.Session.{ahead, behind, after_line, line_text, lines_text, value_text};
ghost use Rattle.alma_back.specs.Standing.{step_limit};

use crate::back::Back;
use crate::script::Line;
use alma_base::NoMemory;
use alma_io::{Sink, write_all};
use alma_plan::Stop;
use alma_trace::put_number;
use std::alloc::Global;

// So many steps, or as many as there are to the end of the run.
fn go_forward(back: &mut Back<'_, '_>, most: u64) -> Result<(), NoMemory>
    requires { back.old.steps + most < step_limit }
    ensures steps { OnOk result (back.new ≡ ahead back.old most) }
    ensures few { OnOk result (back.new.steps ≤ back.old.steps + most) }
{
    let mut made = 0;
    while made < most && back.is_running() {
        back.step()?;
        made += 1;
    }
    Ok(())
}

// So many steps back, or as many as were made.
fn go_back(back: &mut Back<'_, '_>, most: u64)
    ensures { back.new ≡ behind back.old most }
{
    let mut left = most;
    while left > 0 {
        if !back.back() {
            return;
        }
        left -= 1;
    }
}

// Goes where a line leads.
fn go(back: &mut Back<'_, '_>, line: Line<'_>) -> Result<(), NoMemory>
    requires short { IsShort line }
    requires few { back.old.steps + greatest_count < step_limit }
    ensures stands { OnOk result (back.new ≡ after_line back.old (line_of line.entry)) }
    ensures few { OnOk result (back.new.steps ≤ back.old.steps + greatest_count) }
{
    match line {
        Line::Forward(steps) => go_forward(back, steps)?,
        Line::Backward(steps) => go_back(back, steps),
        Line::Value(_) | Line::Output => {}
    }
    Ok(())
}

// Puts down the value of a name.
fn put_value(text: &mut Vec<u8>, back: &Back<'_, '_>, name: &[u8]) -> Result<(), NoMemory>
    ensures { OnOk result (text.new.items ≡ value_text back.now name.now) }
{
    text.clear();
    text.extend_from_slice(name)?;
    text.push(b'=')?;
    back.push_value(text, name)?;
    text.push(b'\n')?;
    Ok(())
}

// Puts down what a line shows, where it leads.
fn put_line(text: &mut Vec<u8>, back: &Back<'_, '_>, line: Line<'_>) -> Result<(), NoMemory>
    ensures { OnOk result (text.new.items ≡ line_text back.now (line_of line.entry)) }
{
    match line {
        Line::Forward(_) | Line::Backward(_) => put_number(text, b"at", back.steps()),
        Line::Value(name) => put_value(text, back, name),
        Line::Output => put_number(text, b"printed", back.printed()),
    }
}

// Goes where a line leads, and writes what it shows there, in one call.
fn show_line<O: Sink>(
    back: &mut Back<'_, '_>,
    line: Line<'_>,
    text: &mut Vec<u8>,
    out: &mut O,
) -> Result<(), Stop>
    requires short { IsShort line }
    requires few { back.old.steps + greatest_count < step_limit }
    ensures stands { OnOk result (back.new ≡ after_line back.old (line_of line.entry)) }
    ensures few { OnOk result (back.new.steps ≤ back.old.steps + greatest_count) }
    ensures shows { Shows (O.side out.old) (O.side out.new)
        (line_text (after_line back.old (line_of line.entry)) (line_of line.entry)) result }
{
    go(back, line)?;
    put_line(text, back, line)?;
    write_all(out, text)?;
    Ok(())
}

/// Goes where lines lead, one after another, from the start of a run, and writes what each shows.
pub fn show_lines<O: Sink>(
    alloc: Global,
    back: &mut Back<'_, '_>,
    lines: &[Line<'_>],
    out: &mut O,
) -> Result<(), Stop>
    requires walkable { AreWalkable lines.now }
    requires fresh { back.old.steps ≡ 0 }
    ensures { Shows (O.side out.old) (O.side out.new)
        (lines_text back.old (lines_of lines.now)) result }
{
    let mut text = Vec::new(alloc);
    for line in lines {
        show_line(back, *line, &mut text, out)?;
    }
    Ok(())
}

// The texts for out.
ghost use Rattle.std.specs.Prelude.{◌≡◌, length};
ghost use Rattle.lw_io.specs.Writers.{Writes};
ghost use Rattle.lw_equal_top.specs.Texts.{HasValues, answer_text, difference_text, kind_text};
ghost use Rattle.lw_equal_top.specs.Texts.{point_line, point_text, undecided_text, value_line};
ghost use Rattle.lw_equal_top.specs.Texts.{value_text, values_text};

use lw_equal::{Answer, Difference, Kind, Point};
use lw_io::{Sink, Writer};
use lw_pool::Name;
use lw_shown::put_shown;

// What stands before the name of a point.
fn kind_text(kind: Kind) -> &'static [u8]
    ensures { result.now ≡ kind_text kind }
{
    match kind {
        Kind::Output => b"",
        Kind::Data => b"latch ",
        Kind::Control => b"control ",
    }
}

// Where sides are compared, by its name.
fn put_point<S: Sink>(out: &mut Writer<'_, S>, point: &Point)
    ensures { Writes S.taken S.faults out.old out.new (point_text point.now) }
{
    out.put(kind_text(point.kind));
    put_shown(out, point.name.as_bytes());
}

fn put_point_line<S: Sink>(out: &mut Writer<'_, S>, before: &[u8], point: &Point)
    ensures { Writes S.taken S.faults out.old out.new (point_line before.now point.now) }
{
    out.put(before);
    put_point(out, point);
    out.put(b"\n");
}

fn value_text(value: bool) -> &'static [u8]
    ensures { result.now ≡ value_text value }
{
    if value { b" 1\n" } else { b" 0\n" }
}

// An input and its value.
fn put_value<S: Sink>(out: &mut Writer<'_, S>, name: &[u8], value: bool)
    ensures { Writes S.taken S.faults out.old out.new (value_line name.now value) }
{
    put_shown(out, name);
    out.put(value_text(value));
}

// The inputs with their values.
fn put_values<S: Sink>(out: &mut Writer<'_, S>, names: &[Name], values: &[bool])
    requires { length values.now ≡ length names.now }
    ensures { Writes S.taken S.faults out.old out.new (values_text names.now values.now) }
{
    for (k, name) in names.iter().enumerate() {
        put_value(out, name.as_bytes(), values[k]);
    }
}

fn put_difference<S: Sink>(out: &mut Writer<'_, S>, names: &[Name], difference: &Difference)
    requires { length difference.now.inputs.items ≡ length names.now }
    ensures { Writes S.taken S.faults out.old out.new (difference_text names.now difference.now) }
{
    put_point_line(out, b"differ ", &difference.point);
    put_values(out, names, &difference.inputs);
}

fn put_undecided<S: Sink>(out: &mut Writer<'_, S>, points: &[Point])
    ensures { Writes S.taken S.faults out.old out.new (undecided_text points.now) }
{
    for point in points {
        put_point_line(out, b"undecided ", point);
    }
}

/// Puts an answer. The names are those of the first side's inputs.
pub fn put_answer<S: Sink>(out: &mut Writer<'_, S>, names: &[Name], answer: &Answer)
    requires { HasValues names.now answer.now }
    ensures { Writes S.taken S.faults out.old out.new (answer_text names.now answer.now) }
{
    match answer {
        Answer::Equal => out.put(b"equal\n"),
        Answer::Differ(difference) => put_difference(out, names, difference),
        Answer::Undecided(points) => put_undecided(out, points.as_slice()),
    }
}

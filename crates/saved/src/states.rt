// A state as text: 17 lines like those of a listing, a JUMP to the point and then a SETC for each register, in order.
ghost use Rattle.std.specs.Prelude.{◌≡◌, ◌+◌, ◌*◌, ◌<◌, ◌≤◌, length};
ghost use Rattle.model.specs.Limits as Limits;
ghost use Rattle.model.specs.Limits.{line_bytes};
ghost use Rattle.model.specs.Listing.{line_at};
ghost use Rattle.saved.specs.States.{is_line_of, target_on, setting_on, registers_to, saved_in, point_fields, register_fields, point_set, register_set, registers_set, text_of};

use lines::judge::judge;
use lines::line::{is_well_spelled, read_fields};
use lines::words;
use model::limits::{LINE_BYTES, REGISTERS};
use model::machine::State;
use model::text::{Field, Word};
use writer::write_line;

// Whether a line is one of this word, well spelled and accepted with its fields.
#[tactic(auto, unfolding(crate::specs::States::is_line_of))]
fn is_line_of(w: Word, l: &[u8]) -> bool
    requires { length l.now ≡ 40 }
    ensures { result ≡ is_line_of w l.now }
{
    if !is_well_spelled(l) {
        return false;
    }
    if !words::begins_with(l, w) {
        return false;
    }
    judge(0, Some(w), read_fields(l)).is_ok()
}

// Line k of a text, counted from 0.
fn line_at(text: &[u8], k: usize) -> &[u8]
    requires { k * line_bytes + line_bytes ≤ length text.now }
    ensures value { result.now ≡ line_at text.now k }
    ensures len { length result.now ≡ line_bytes }
{
    let a = k * LINE_BYTES;
    &text[a..a + LINE_BYTES]
}

// The point that a line names.
fn target_on(l: &[u8]) -> Option<usize>
    requires { length l.now ≡ 40 }
    ensures { result ≡ target_on l.now }
{
    if !is_line_of(Word::Jump, l) {
        return None;
    }
    Some(read_fields(l).fourth as usize)
}

// The number that a line sets register v to.
fn setting_on(l: &[u8], v: usize) -> Option<u32>
    requires { length l.now ≡ 40 }
    ensures { result ≡ setting_on l.now v }
{
    if !is_line_of(Word::Setc, l) {
        return None;
    }
    let x = read_fields(l);
    if x.first != v as u64 {
        return None;
    }
    Some(x.sixth as u32)
}

// The registers, from lines 2 to 17: register v stands on line v + 2.
fn read_registers(text: &[u8]) -> Option<[u32; REGISTERS]>
    requires { length text.now ≡ 680 }
    ensures { result ≡ registers_to text.now Limits.registers }
{
    let mut registers = [0; REGISTERS];
    for v in 0..REGISTERS {
        registers[v] = setting_on(line_at(text, v + 1), v)?;
    }
    Some(registers)
}

// The state of a text, where it is one.
pub fn read_state(text: &[u8]) -> Option<State>
    ensures { result ≡ saved_in text.now }
{
    if text.len() != 680 {
        return None;
    }
    let point = target_on(line_at(text, 0))?;
    let registers = read_registers(text)?;
    Some(State { point, registers })
}

// The fields of the line that names the point.
fn point_fields(point: usize) -> [Field; 6]
    ensures { result ≡ point_fields point }
{
    let mut fields = [Field::Blank; 6];
    fields[3] = Field::Number(point as u64);
    fields
}

// The fields of the line that sets register v.
fn register_fields(v: usize, c: u32) -> [Field; 6]
    ensures { result ≡ register_fields v c }
{
    let d = Field::Number(v as u64);
    let n = Field::Number(u64::from(c));
    [d, Field::Blank, Field::Blank, Field::Blank, Field::Blank, n]
}

// Writes the line of register v.
fn set_register(text: &mut [u8], v: usize, c: u32)
    requires { (length text.old ≡ 680) × (v < Limits.registers) }
    ensures { text.new ≡ register_set text.old v c }
{
    write_line(text, v + 1, Word::Setc, register_fields(v, c));
}

// Writes the lines of all registers.
fn set_registers(text: &mut [u8], registers: [u32; REGISTERS])
    requires { length text.old ≡ 680 }
    ensures { text.new ≡ registers_set text.old registers Limits.registers }
{
    for v in 0..REGISTERS {
        set_register(text, v, registers[v]);
    }
}

// Writes the line of the point.
fn set_point(text: &mut [u8], point: usize)
    requires { length text.old ≡ 680 }
    ensures { text.new ≡ point_set text.old point }
{
    write_line(text, 0, Word::Jump, point_fields(point));
}

// The text of a state.
pub fn write_state(s: State) -> [u8; 680]
    ensures { result ≡ text_of s }
{
    let mut text = [b' '; 680];
    set_point(&mut text, s.point);
    set_registers(&mut text, s.registers);
    text
}

// The text of a sheet: a line for each state, or the line of a refusal.
ghost use Rattle.std.specs.Prelude.{◌≡◌, ◌+◌, ◌^◌, ◌<◌, ◌≤◌, ◌++◌, length, codes, decimal};
ghost use Rattle.plant.specs.Bits.{bit};
ghost use Rattle.plant.specs.Meaning.{most_bits, most_lines};
ghost use Rattle.filling.specs.Adding.{Added, HasRoom};
ghost use Rattle.filling.specs.Writing.{Wrote};
ghost use Rattle.draft.specs.Rows.{open_in};
ghost use Rattle.sheet_call.specs.Page.{digit, digits_of, state_line, sheet_text, refusal_text};

use crate::room::TEXT_LENGTH;
use filling::Filling;
use itoa::Buffer;
use plant::{Row, has_bit};
use refusal::Refusal;

// Writes the bytes. There is room for them, so they are not turned away;
// by `?` each caller would hand on a fault that can not come.
fn put(page: &mut Filling<'_, u8>, bytes: &[u8])
    requires { HasRoom page.old (length bytes.now) }
    ensures { Added page.old page.new bytes.now }
{
    let _ = page.extend_from_slice(bytes);
}

// Writes the number and a space.
fn put_spaced(page: &mut Filling<'_, u8>, number: usize)
    requires { HasRoom page.old (length (decimal number) + 1) }
    ensures { Added page.old page.new (decimal number ++ codes " ") }
{
    let mut digits = Buffer::new();
    put(page, digits.format(number).as_bytes());
    put(page, b" ");
}

// 1 where the row has the setting open, else 0.
fn digit_of(row: Row, setting: u32) -> u8
    ensures { result ≡ digit (bit row setting) }
{
    if has_bit(u32::from(row), setting) {
        b'1'
    } else {
        b'0'
    }
}

// Writes a digit for each setting, the first for setting 0: 1 where the row has it open.
fn put_row(page: &mut Filling<'_, u8>, row: Row, settings: u32)
    requires { HasRoom page.old settings }
    ensures { Added page.old page.new (digits_of settings (bit row)) }
{
    for setting in 0..settings {
        put(page, &[digit_of(row, setting)]);
    }
}

// Writes the line of a state: its number, a space, the digits of its row.
fn put_line(page: &mut Filling<'_, u8>, state: usize, row: Row, settings: u32)
    requires a_state { state < 2 ^ most_bits }
    requires room { HasRoom page.old (5 + settings) }
    ensures { Added page.old page.new (state_line settings state (bit row)) }
{
    put_spaced(page, state);
    put_row(page, row, settings);
    put(page, b"\n");
}

// Writes a line for each row from the first byte on. Their length.
pub(crate) fn put_lines(text: &mut [u8; TEXT_LENGTH], rows: &[Row], settings: u32) -> usize
    requires few_rows { length rows.now ≤ 2 ^ most_bits }
    requires few_settings { settings ≤ 2 ^ most_lines }
    ensures { Wrote text.old text.new 0 result (sheet_text (length rows.now) settings (open_in rows.now)) }
{
    let mut page = Filling::new(text);
    for (state, row) in rows.iter().enumerate() {
        put_line(&mut page, state, *row, settings);
    }
    page.len()
}

// Writes the line of a refusal from the first byte on. Its length.
// Beside `Display`, since `write!` does not promise that it succeeds.
pub(crate) fn put_refusal(text: &mut [u8; TEXT_LENGTH], refusal: Refusal) -> usize
    ensures { Wrote text.old text.new 0 result (refusal_text refusal) }
{
    let mut page = Filling::new(text);
    put(&mut page, b"refused ");
    put_spaced(&mut page, refusal.number as usize);
    put_spaced(&mut page, refusal.place);
    put(&mut page, refusal.layer.word().as_bytes());
    put(&mut page, b"\n");
    page.len()
}

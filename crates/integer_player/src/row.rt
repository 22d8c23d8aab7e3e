//! A row of the output.

ghost use Rattle.std.specs.Prelude.{◌≡◌, ◌+◌, ◌≤◌, ◌∷◌, ◌++◌, length};
ghost use Rattle.std.specs.Fmt.{signed_decimal};
ghost use Rattle.integer_player.specs.Played.{row, row_bytes};

use arrayvec::ArrayVec;
use itoa::Buffer;

/// The most bytes of a row: an instant of ten digits, a name of 16 bytes, four numbers of at most 20 with their signs,
/// a space between any two of them, and a line feed.
pub const ROW_BYTES: usize = 112;

/// A row. It takes no memory.
pub type Row = ArrayVec<u8, ROW_BYTES>;

fn put_number(row: &mut Row, value: i64)
    requires { length row.old.items + 21 ≤ row_bytes }
    ensures number { row.new.items ≡ row.old.items ++ 32 ∷ signed_decimal value }
    ensures room { length row.new.items ≤ length row.old.items + 21 }
{
    let mut digits = Buffer::new();
    row.push(b' ');
    row.try_extend_from_slice(digits.format(value).as_bytes())
        .unwrap();
}

/// The row of a drone at an instant in milliseconds: the instant, the drone's name, of at most 16 bytes, x, y and z in
/// micrometres and yaw in hundredths of a degree (docs/COMMANDS.md, `play`). It is put together word by word, and not
/// by a template of `byte_streams`, which would make `play` a fifth slower.
pub fn play_row(ms: u32, name: &[u8], position: [i64; 4]) -> Row
    requires { length name.now ≤ 16 }
    ensures { result.items ≡ row ms name.now position }
{
    let mut digits = Buffer::new();
    let mut row = ArrayVec::new();
    row.try_extend_from_slice(digits.format(ms).as_bytes())
        .unwrap();
    row.push(b' ');
    row.try_extend_from_slice(name).unwrap();
    put_number(&mut row, position[0]);
    put_number(&mut row, position[1]);
    put_number(&mut row, position[2]);
    put_number(&mut row, position[3]);
    row.push(b'\n');
    row
}

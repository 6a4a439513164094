ghost use Rattle.std.specs.Prelude.{◌≡◌, ◌≤◌, length};

use crate::row::Row;

mod added;

// At most 16 rows, each with a multiplier; the multipliers are lent apart from the rows.
#[derive(Clone, Copy)]
pub(super) struct Multiplied<'a> {
    pub(super) rows: &'a [Row],
    pub(super) multipliers: &'a [u32],
    ghost few: { length rows.now ≤ 16 },
    ghost paired: { length multipliers.now ≡ length rows.now },
}

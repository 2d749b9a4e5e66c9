//! Tables of numbers and names.

ghost use Rattle.std.specs.Prelude.{◌≡◌};
ghost use Rattle.fs_text.specs.Tables.{named};

/// A row of a table: a value, its number and its name.
pub(crate) type Row<T> = (T, u16, &'static str);

/// The value whose row has this name.
#[tactic(auto, unfolding(crate::specs::Tables::named))]
pub(crate) fn named<T: Copy>(rows: &[Row<T>], name: &[u8]) -> Option<T>
    ensures { result ≡ named rows.now name.now }
{
    rows.iter()
        .find(|row| row.2.as_bytes() == name)
        .map(|row| row.0)
}

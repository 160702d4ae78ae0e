// Prefix tables: whether a table is good, and the level that it gives a source. No public function has a `requires`.
#![tactic(auto)]

ghost use Rattle.std.specs.Prelude.{◌≡◌, map};
ghost use Rattle.prefix.specs.Prefix.{row_of};
ghost use Rattle.prefix_table.specs.Table.{rows_of};
ghost use Rattle.prefix_table.specs.TableTests.{known, good_table, level_in};

use prefix::{is_good, matches, same_prefix};

// Bytes of a row: family, bits, level, and sixteen of the address.
const ROW: usize = 19;

// Rows of the longest table.
const MOST_ROWS: usize = 64;

// Whether one of the rows has the prefix of this one.
fn is_known(row: &[u8; ROW], rows: &[[u8; ROW]]) -> bool
    ensures { result ≡ known (row_of row.now) (map row_of rows.now) }
{
    for other in rows {
        if same_prefix(row, other) {
            return true;
        }
    }
    false
}

// Whether the table is good. Not inlined: a caller that reads a header next would keep the room that this takes on its stack.
#[inline(never)]
pub fn is_good_table(table: &[u8]) -> bool
    ensures { result ≡ good_table table.now }
{
    let (rows, rest) = table.as_chunks::<ROW>();
    if !rest.is_empty() {
        return false;
    }
    if MOST_ROWS < rows.len() {
        return false;
    }
    for (i, row) in rows.iter().enumerate() {
        if !is_good(row) {
            return false;
        }
        if is_known(row, &rows[i + 1..]) {
            return false;
        }
    }
    true
}

// The level of a source of this family: that of the longest matching prefix, 0 where none matches.
pub fn level_of(table: &[u8], family: u8, source: &[u8]) -> u8
    ensures { result ≡ level_in (rows_of table.now) family source.now }
{
    let (rows, _) = table.as_chunks::<ROW>();
    let mut reach: usize = 0;
    let mut level: u8 = 0;
    for row in rows {
        let next = row[1] as usize + 1;
        let further = reach < next;
        if further {
            if matches(row, family, source) {
                reach = next;
                level = row[2];
            }
        }
    }
    level
}

//! Rows in order of id.

ghost use Rattle.std.specs.Prelude.{IsPermutation};
ghost use Rattle.std.specs.List.Sorted.{IsNonDecreasingBy};

use history_book::answer::Rows;

/// Puts the rows in order of id: by itself, so that its clauses are those of the sort.
fn order_rows(rows: &mut Rows)
    ensures permutation { IsPermutation rows.old.items rows.new.items }
    ensures sorted { IsNonDecreasingBy (λ r. r.subject.id) rows.new.items }
{
    rows.sort_unstable_by_key(|row| row.subject.id);
}

/// Puts the rows in order of id, and gives up the room that none of them needs.
pub fn sort_rows(rows: &mut Rows)
    ensures permutation { IsPermutation rows.old.items rows.new.items }
    ensures sorted { IsNonDecreasingBy (λ r. r.subject.id) rows.new.items }
{
    order_rows(rows);
    rows.fit();
}

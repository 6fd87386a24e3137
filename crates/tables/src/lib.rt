// What shift tables of any rule share: a table by a rule, what a maker leaves of a lent table, the laws that makers and engines cite of either, and `set_all`.
// It depends on `matching` for the rule of a lent list and for case analysis.
// The rules and the makers are in `letter_tables`, `border_tables` and `suffix_tables`; a table of another family is a crate beside those three.
#![tactic(auto)]

ghost use Rattle.std.specs.Prelude.{◌≡◌, length, replicate};

// Sets every entry to one value.
pub fn set_all(table: &mut [u16], value: u16)
    ensures { table.new ≡ replicate (length table.old) value }
{
    table.fill(value);
}

//! How many cells tables and rules have.

ghost use Rattle.std.specs.Prelude.{◌≡◌, ◌<◌, ◌≤◌, ◌*◌, min, length, All, IfOk, OnOk};
ghost use Rattle.maid_model.specs.declared.limits.TheConstants.{COUNT_END, MOST_CELLS, MOST_RULE_CELLS};
ghost use Rattle.net_build.specs.Linking.{cells_row, rules_row, size_rows_over, size_steps, rules_with};
ghost use Rattle.net_build.specs.Lists.{numbers_of_lists};
ghost use Rattle.first_fault.specs.Answers.{Passes};
ghost use Rattle.net_build.specs.Passes.{build_fault};
ghost use Rattle.net_build.specs.LinkCalls.{HaveFewCells, HaveFewRuleCells};
ghost use Rattle.net_build.specs.Stages.{rows_over, cells_of_head_over};

use crate::faults::{BuildFault, BuildKind, Limit};
use crate::nodes::Head;
use maid_model::{COUNT_END, Kind, MOST_CELLS, MOST_RULE_CELLS};

// So many times as many, counted up to 10^18.
fn times(count: u128, states: usize) -> u128
    requires { count ≤ COUNT_END }
    ensures { result ≡ min (count * states) COUNT_END }
{
    (count * states as u128).min(COUNT_END)
}

/// How many rows a table over these parents has, counted up to 10^18.
pub fn count_rows(heads: &[Head], parents: &[usize]) -> u128
    requires { All (λ u. u < length heads.now) parents.now }
    ensures { result ≡ min (rows_over heads.now parents.now) COUNT_END }
{
    let mut rows = 1;
    for parent in parents {
        rows = times(rows, heads[*parent].states);
    }
    rows
}

// The node over these parents has no more cells than a table or a rule may have.
fn check_cells(heads: &[Head], parents: &[usize], node: usize) -> Result<u128, BuildFault>
    requires within { node < length heads.now }
    requires parents { All (λ u. u < length heads.now) parents.now }
    ensures row { Passes build_fault (cells_row heads.now parents.now node) result }
    ensures cells { IfOk result (λ cells. cells ≡ cells_of_head_over heads.now parents.now node) }
    ensures few { IfOk result (λ cells. cells ≤ MOST_CELLS) }
{
    let cells = times(count_rows(heads, parents), heads[node].states);
    if cells > MOST_CELLS as u128 {
        return Err(BuildKind::LimitPassed {
            which: Limit::Cells,
            got: cells,
        }
        .at(heads[node].at));
    }
    Ok(cells)
}

// The rules up to the node of this head have no more cells than all rules may have.
fn check_rules(head: &Head, rules: u128) -> Result<(), BuildFault>
    ensures { Passes build_fault (rules_row head.now rules) result }
{
    if rules > MOST_RULE_CELLS as u128 {
        return Err(BuildKind::LimitPassed {
            which: Limit::Rules,
            got: rules,
        }
        .at(head.at));
    }
    Ok(())
}

// The node over these parents keeps the limits behind rules of so many cells; it gives how many
// there are with its own.
fn check_size(
    heads: &[Head],
    parents: &[usize],
    node: usize,
    rules: u128,
) -> Result<u128, BuildFault>
    requires within { node < length heads.now }
    requires parents { All (λ u. u < length heads.now) parents.now }
    requires rules { rules ≤ MOST_RULE_CELLS }
    ensures rows { Passes build_fault (size_rows_over heads.now parents.now node rules) result }
    ensures sum { IfOk result (λ sum. sum ≡ rules_with heads.now parents.now node rules) }
    ensures few { IfOk result (λ sum. sum ≤ MOST_RULE_CELLS) }
    ensures cells { OnOk result (cells_of_head_over heads.now parents.now node ≤ MOST_CELLS) }
{
    let cells = check_cells(heads, parents, node)?;
    match heads[node].kind {
        Kind::Decision => {
            check_rules(&heads[node], rules + cells)?;
            Ok(rules + cells)
        }
        Kind::Chance | Kind::Utility => Ok(rules),
    }
}

/// Each node keeps the limits of cells, and the rules together do.
pub fn check_sizes(heads: &[Head], parents: &[Vec<usize>]) -> Result<(), BuildFault>
    requires len { length parents.now ≡ length heads.now }
    requires parents { All (All (λ u. u < length heads.now)) (numbers_of_lists parents.now) }
    ensures rows { Passes build_fault (size_steps heads.now (numbers_of_lists parents.now)) result }
    ensures cells { OnOk result (HaveFewCells heads.now (numbers_of_lists parents.now)) }
    ensures rules { OnOk result (HaveFewRuleCells heads.now (numbers_of_lists parents.now)) }
{
    let mut rules = 0;
    for node in 0..heads.len() {
        rules = check_size(heads, &parents[node], node, rules)?;
    }
    Ok(())
}

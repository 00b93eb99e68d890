//! The tables of nodes, one by one, before the scale of utilities is known.

ghost use Rattle.std.specs.Prelude.{◌≡◌, ◌≢◌, ◌↔◌, ◌<◌, ◌≤◌, ◌*◌, true, IfOk, IfSome, IsSome, IsTrue};
ghost use Rattle.maid_model.specs.declared.limits.TheConstants.{MOST_CELLS, MOST_DECIMALS};
ghost use Rattle.maid_model.specs.declared.diagrams.Kind.TheVariants.{Decision};
ghost use Rattle.first_fault.specs.Answers.{Passes};
ghost use Rattle.net_build.specs.Passes.{build_fault};
ghost use Rattle.net_build.specs.TableParts.{FitsDraft, HasDecimalsAtMost, IsValueDraft, Reaches, finished};
ghost use Rattle.net_parser.specs.Owned.{IsAttributeOf, IsBlockOf, leaves};
ghost use Rattle.net_parser.specs.Grammar.{is_potential};
ghost use Rattle.net_build.specs.TableCalls.{IsDraftFromBlock, IsDraftUnder, IsHeadDraft, IsPotentialOf, PassesDraft, head_data_part};
ghost use Rattle.net_build.specs.TableSteps.{PassesTable};

use crate::attributes::{check_repeats, first_named};
use crate::faults::{BuildFault, BuildKind};
use crate::labels::title;
use crate::leaves::leaves;
use crate::nodes::Head;
use crate::numbers::read_numbers;
use crate::plain_tables::plain_draft;
use crate::scales::{all_fit, can_raise, cells_within, most_decimals, raise, scaled_cells};
use crate::weights::weights;
use maid_model::Kind;
use net_lexer::Token;
use net_parser::{Attribute, Block};
use std::alloc::{AllocError, Global};
use weight_scale::Decimal;

/// A node's table, before the scale of all utilities is known.
#[derive(Drop)]
pub enum Draft {
    /// A chance node's weights, or a decision's cells, which are none.
    Cells(Vec<i128>),
    /// A utility's values, one of which is too great or too little to the scale that they need.
    Values(Vec<Decimal>),
    /// Any other utility's values, each times 10^decimals, the most decimals that one of them has.
    Scaled { cells: Vec<i128>, decimals: u32 },
}

// A utility's table. Its values take twice the room of its cells, and are kept only where one of
// them is too great or too little.
fn value_draft(alloc: Global, decimals: Vec<Decimal>) -> Result<Draft, AllocError>
    ensures { IfOk result (IsValueDraft decimals.items) }
{
    let most = most_decimals(&decimals);
    match cells_within(alloc, &decimals, most)? {
        Some(cells) => Ok(Draft::Scaled {
            cells,
            decimals: most,
        }),
        None => Ok(Draft::Values(decimals)),
    }
}

// The table in the value of `data`, whose leaves these are.
fn read_cells(
    alloc: Global,
    text: &[u8],
    head: &Head,
    rows: usize,
    table: &Attribute<'_>,
    numerals: &[Token],
) -> Result<Draft, BuildFault>
    requires own { IsAttributeOf text.now table.now }
    requires numerals { numerals.now ≡ leaves table.now.value }
    requires kind { head.now.kind ≢ Decision }
    requires states { 0 < head.now.states }
    requires small { rows * head.now.states ≤ MOST_CELLS }
    ensures rows { Passes build_fault
        (head_data_part text.now head.now rows table.now) result }
    ensures draft { IfOk result (IsHeadDraft text.now head.now rows numerals.now) }
{
    let decimals = read_numbers(alloc, text, table, numerals, rows * head.states)?;
    match head.kind {
        Kind::Chance => {
            let cells = weights(alloc, table.name().start, numerals, &decimals, head.states)?;
            Ok(Draft::Cells(cells))
        }
        _ => Ok(value_draft(alloc, decimals)?),
    }
}

// The table in the value of `data`, whose leaves these are. Most chance tables are read in one
// pass.
fn read_leaves(
    alloc: Global,
    text: &[u8],
    head: &Head,
    rows: usize,
    table: &Attribute<'_>,
    numerals: &[Token],
) -> Result<Draft, BuildFault>
    requires own { IsAttributeOf text.now table.now }
    requires numerals { numerals.now ≡ leaves table.now.value }
    requires kind { head.now.kind ≢ Decision }
    requires states { 0 < head.now.states }
    requires small { rows * head.now.states ≤ MOST_CELLS }
    ensures rows { Passes build_fault
        (head_data_part text.now head.now rows table.now) result }
    ensures draft { IfOk result (IsHeadDraft text.now head.now rows numerals.now) }
{
    if let Some(draft) = plain_draft(alloc, text, head, rows, table, numerals)? {
        return Ok(draft);
    }
    read_cells(alloc, text, head, rows, table, numerals)
}

// The table in the value of `data`. The leaves of a list without a list inside are lent; those of
// any other value are listed anew.
fn read_data(
    alloc: Global,
    text: &[u8],
    head: &Head,
    rows: usize,
    table: &Attribute<'_>,
) -> Result<Draft, BuildFault>
    requires own { IsAttributeOf text.now table.now }
    requires kind { head.now.kind ≢ Decision }
    requires states { 0 < head.now.states }
    requires small { rows * head.now.states ≤ MOST_CELLS }
    ensures rows { Passes build_fault
        (head_data_part text.now head.now rows table.now) result }
    ensures draft { IfOk result (IsHeadDraft text.now head.now rows (leaves table.now.value)) }
{
    if let Some(tokens) = table.value().flat_list() {
        return read_leaves(alloc, text, head, rows, table, tokens);
    }
    let tokens = leaves(alloc, table.value())?;
    read_leaves(alloc, text, head, rows, table, &tokens)
}

// The table in the potential.
fn read_table(
    alloc: Global,
    text: &[u8],
    head: &Head,
    rows: usize,
    potential: &Block<'_>,
) -> Result<Draft, BuildFault>
    requires own { IsBlockOf text.now potential.now }
    requires potential { is_potential potential.now.kind ≡ true }
    requires kind { head.now.kind ≢ Decision }
    requires states { 0 < head.now.states }
    requires small { rows * head.now.states ≤ MOST_CELLS }
    ensures rows { PassesTable text.now head.now rows potential.now result }
    ensures draft { IfOk result (IsDraftFromBlock text.now head.now rows potential.now) }
{
    check_repeats(text, potential)?;
    match first_named(text, &potential.attributes, b"data") {
        Some(table) => read_data(alloc, text, head, rows, table),
        None => Err(BuildKind::MissingTable.at(title(potential).start)),
    }
}

/// A node's table, with so many rows. A decision has none, whatever its potential holds.
pub fn read_draft(
    alloc: Global,
    text: &[u8],
    head: &Head,
    rows: usize,
    potential: Option<&Block<'_>>,
) -> Result<Draft, BuildFault>
    requires own { IfSome potential (λ p.
        IsPotentialOf text.now p.now) }
    requires there { head.now.kind ≢ Decision → IsSome potential }
    requires states { 0 < head.now.states }
    requires small { rows * head.now.states ≤ MOST_CELLS }
    ensures rows { PassesDraft text.now head.now rows potential.entry result }
    ensures draft { IfOk result (IsDraftUnder text.now head.now rows potential.entry) }
{
    match (head.kind, potential) {
        (Kind::Decision, _) => Ok(Draft::Cells(Vec::new(alloc))),
        (_, Some(potential)) => read_table(alloc, text, head, rows, potential),
        (_, None) => unreachable!(),
    }
}

/// The most decimals that one of a utility's values has.
pub fn most_in(draft: &Draft) -> u32
    requires few { HasDecimalsAtMost MOST_DECIMALS draft.now }
    ensures most { HasDecimalsAtMost result draft.now }
    ensures reached { 0 < result → Reaches result draft.now }
    ensures few { result ≤ MOST_DECIMALS }
{
    match draft {
        Draft::Cells(_) => 0,
        Draft::Values(decimals) => most_decimals(decimals),
        Draft::Scaled { decimals, .. } => *decimals,
    }
}

/// Each of a utility's values, to scale, lies within the limits.
pub fn draft_fits(draft: &Draft, scale: u32) -> bool
    requires enough { HasDecimalsAtMost scale draft.now }
    requires few { scale ≤ MOST_DECIMALS }
    ensures { IsTrue result ↔ FitsDraft scale draft.now }
{
    match draft {
        Draft::Cells(_) => true,
        Draft::Values(decimals) => all_fit(decimals, scale),
        Draft::Scaled { cells, decimals } => can_raise(cells, scale - decimals),
    }
}

/// The table's cells, a utility's to that scale.
pub fn finish_draft(alloc: Global, draft: Draft, scale: u32) -> Result<Vec<i128>, AllocError>
    requires few { scale ≤ MOST_DECIMALS }
    requires fits { FitsDraft scale draft }
    ensures { IfOk result (λ cells. cells.items ≡ finished scale draft) }
{
    match draft {
        Draft::Cells(cells) => Ok(cells),
        Draft::Values(decimals) => scaled_cells(alloc, &decimals, scale),
        Draft::Scaled {
            mut cells,
            decimals,
        } => {
            raise(&mut cells, scale - decimals);
            Ok(cells)
        }
    }
}

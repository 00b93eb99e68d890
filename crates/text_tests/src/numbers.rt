//! Numerals, rows and bounds at the ends of their ranges.

ghost use Rattle.std.specs.Prelude.{◌≡◌, ◌<◌, ◌≤ℤ◌, ◌%◌, ◌^◌, All, IfOk, length, pos, true, unsigned_abs};
ghost use Rattle.net_lexer.specs.Numerals.{is_numeral};
ghost use Rattle.sample_diagrams.specs.Nodes.{PassesTests};
ghost use Rattle.text_tests.specs.Numbers.{two_parts, weights_if, values_if, others_if};

use maid_model::Diagram;
use sample_diagrams::{Sample, chance, decision, sample_diagram, shared_utility, utility};
use std::alloc::{AllocError, Global};
use std::process::Abort;
use weight_scale::{
    BoundPlace, Decimal, ScaleFault, bound, numeral, plain_total, scale_rows, whole_numeral,
};

// Compares the value of a numeral with this one.
fn compare(rt: &impl Abort, text: &str, value: Option<(i128, u32)>)
    requires { is_numeral text.now ≡ true }
{
    let found = numeral(text.as_bytes()).map(|decimal| (decimal.m, decimal.k));
    assert_eq!(rt; found, value, "{text}");
}

#[test]
fn numerals_have_their_value(rt: HostRuntime) {
    compare(&rt, "0", Some((0, 0)));
    compare(&rt, "-0", Some((0, 0)));
    compare(&rt, "0e999", Some((0, 0)));
    compare(&rt, ".5", Some((5, 1)));
    compare(&rt, "5.", Some((5, 0)));
    compare(&rt, "+1.000", Some((1, 0)));
    compare(&rt, "-12.50E+1", Some((-125, 0)));
    compare(&rt, "0012.50e-3", Some((125, 4)));
}

#[test]
fn numerals_have_their_limits(rt: HostRuntime) {
    let tens = 10_000_000_000_000_000_000_000_000_000_000_000_000;
    compare(&rt, "1e37", Some((tens, 0)));
    compare(&rt, "1e38", None);
    compare(&rt, "1e-30", Some((1, 30)));
    compare(&rt, "1e-31", None);
    compare(&rt, "10e-31", Some((1, 30)));
}

#[test]
fn the_greatest_numeral_has_its_value(rt: HostRuntime) {
    let greatest = 85_070_591_730_234_615_865_843_651_857_942_052_863;
    compare(
        &rt,
        "85070591730234615865843651857942052863",
        Some((greatest, 0)),
    );
    compare(
        &rt,
        "-8.5070591730234615865843651857942052863e7",
        Some((-greatest, 30)),
    );
    compare(&rt, "85070591730234615865843651857942052864", None);
    // 2^126 * 10 - 10, written with a decimal that is nought
    compare(
        &rt,
        "850705917302346158658436518579420528630e-1",
        Some((greatest, 0)),
    );
}

// Each row has a text, and the number that its digits alone are: what isn't plain is left to the
// calls that read all.
const PLAIN: &[(&str, Option<i128>)] = &[
    ("000000000000000000", Some(0)),
    ("999999999999999999", Some(999_999_999_999_999_999)),
    ("0999999999999999999", None),
    ("+7", None),
    ("7.", None),
];

#[test]
fn plain_readings_end_where_they_say(rt: HostRuntime) {
    for &(text, number) in PLAIN {
        assert_eq!(rt; whole_numeral(text.as_bytes()), number, "{text}");
    }
}

// Compares the plain total of the rows with this one.
fn compare_total(rt: &impl Abort, cells: &[i128], states: usize, total: Option<u128>)
    requires states { 0 < states }
    requires whole { length cells.now % states ≡ 0 }
    requires above { All (λ x. pos 0 ≤ℤ x) cells.now }
{
    assert_eq!(rt; plain_total(cells, states), total, "{cells:?}");
}

// And rows without a plain total have none.
#[test]
fn plain_rows_have_their_total(rt: HostRuntime) {
    compare_total(&rt, &[1, 2, 3, 0], 4, Some(6));
    compare_total(&rt, &[1, 2, 2, 1], 2, Some(3));
    // 3 0 shares 3, and all four numbers nothing
    compare_total(&rt, &[1, 2, 3, 0], 2, Some(3));
    // all share 2
    compare_total(&rt, &[4, 2, 6, 0], 2, None);
    // all are 0
    compare_total(&rt, &[0, 0], 2, None);
    // totals 3 and 2
    compare_total(&rt, &[1, 2, 1, 1], 2, None);
    // no row
    compare_total(&rt, &[], 2, None);
}

#[test]
fn numerals_have_any_length(rt: HostRuntime) {
    let many =
        "10000000000000000000000000000000000000000000000000000000000000000000000000000000000000000\
          0000000000000000000000000000000000000000000000000000000000000000000000000000000000000000\
          0000000000000000000000000000000000000000000000000000000000000000000000000000000000000000\
          0000000000000000000000000000000000000000000000000000000000000000000000000000000000000000\
          000000000000000000000000000000000000000000000000\
          e-400";
    compare(&rt, many, Some((1, 0)));
}

#[test]
fn exponents_have_any_length(rt: HostRuntime) {
    compare(
        &rt,
        "0e-999999999999999999999999999999999999999999",
        Some((0, 0)),
    );
    compare(&rt, "1e999999999999999999999999999999999999999999", None);
    compare(&rt, "1e-999999999999999999999999999999999999999999", None);
    compare(
        &rt,
        "7e-000000000000000000000000000000000000000000000000002",
        Some((7, 2)),
    );
}

// 2^126 - 1
const GREATEST: i128 = 85_070_591_730_234_615_865_843_651_857_942_052_863;

fn decimal(m: i128, k: u32) -> Decimal
    requires small { unsigned_abs m < 2 ^ 126 }
    requires few { k < 31 }
    ensures m { result.m ≡ m }
{
    Decimal { m, k }
}

// Whether the rows have these weights and this total, or why they have none.
fn have(
    alloc: Global,
    rows: &[Decimal],
    states: usize,
    weights: &[i128],
    total: u128,
) -> Result<bool, ScaleFault>
    requires states { 0 < states }
    requires whole { length rows.now % states ≡ 0 }
{
    let scaled = scale_rows(alloc, rows, states)?;
    Ok(scaled.weights.as_slice() == weights && scaled.total == total)
}

// Compares the weights and the total of the rows with these.
fn compare_rows(
    rt: &impl Abort,
    alloc: Global,
    rows: &[Decimal],
    states: usize,
    weights: &[i128],
    total: u128,
)
    requires states { 0 < states }
    requires whole { length rows.now % states ≡ 0 }
{
    let found = have(alloc, rows, states, weights, total);
    assert_eq!(rt; found, Ok(true), "{rows:?}");
}

// Compares with this fault why the rows have no weights.
fn compare_fault(rt: &impl Abort, alloc: Global, rows: &[Decimal], states: usize, fault: ScaleFault)
    requires states { 0 < states }
    requires whole { length rows.now % states ≡ 0 }
{
    let found = have(alloc, rows, states, &[], 0);
    assert_eq!(rt; found, Err(fault), "{rows:?}");
}

#[test]
fn rows_have_their_weights(rt: HostRuntime) {
    let alloc = rt.alloc();
    let third = decimal(333_333, 6);
    compare_rows(&rt, alloc, &[third, third, third], 3, &[1, 1, 1], 3);
    let rows = [
        decimal(3, 1),
        decimal(7, 1),
        third,
        decimal(666_667, 6),
        decimal(1, 0),
        decimal(0, 0),
    ];
    let weights = [300_000, 700_000, 333_333, 666_667, 1_000_000, 0];
    compare_rows(&rt, alloc, &rows, 2, &weights, 1_000_000);
    // a nought may have more decimals than the others
    let rows = [decimal(0, 30), decimal(6, 1), decimal(4, 1)];
    compare_rows(&rt, alloc, &rows, 3, &[0, 3, 2], 5);
}

#[test]
fn great_numbers_have_their_weights(rt: HostRuntime) {
    let alloc = rt.alloc();
    // raised to whole numbers the first would be about 8 * 10^58
    let rows = [
        decimal(79_228_162_514_264_337_593_543_950_335, 0),
        decimal(931_322_574_615_478_515_625, 30),
    ];
    let first = 85_070_591_730_234_615_865_843_651_856_868_311_040;
    compare_rows(&rt, alloc, &rows, 2, &[first, 1], first as u128 + 1);
    let fits = [decimal(GREATEST - 1, 0), decimal(1, 0)];
    let weights = [GREATEST - 1, 1];
    compare_rows(&rt, alloc, &fits, 2, &weights, GREATEST as u128);
}

#[test]
fn rows_have_their_fault(rt: HostRuntime) {
    let alloc = rt.alloc();
    let wide = [decimal(GREATEST, 0), decimal(1, 0)];
    compare_fault(&rt, alloc, &wide, 2, ScaleFault::WideWeight);
    let rows = [decimal(0, 0), decimal(0, 0), decimal(1, 0), decimal(-1, 0)];
    compare_fault(&rt, alloc, &rows, 2, ScaleFault::Negative { place: 3 });
    let rows = [wide[0], wide[1], decimal(0, 0), decimal(0, 9)];
    compare_fault(&rt, alloc, &rows, 2, ScaleFault::ZeroRow { row: 1 });
}

// 2^125 or 2^100
fn weights(wide: bool) -> &'static [i128]
    ensures { result.now ≡ weights_if wide }
{
    if wide {
        &[42_535_295_865_117_307_932_921_825_928_971_026_432]
    } else {
        &[1_267_650_600_228_229_401_496_703_205_376]
    }
}

// 2^100 or 1, and 0
fn values(dear: bool) -> &'static [i128]
    ensures { result.now ≡ values_if dear }
{
    if dear {
        &[1_267_650_600_228_229_401_496_703_205_376, 0]
    } else {
        &[1, 0]
    }
}

fn others(shared: bool) -> &'static [usize]
    ensures { result.now ≡ others_if shared }
{
    if shared { &[1] } else { &[] }
}

// A choice of the first agent, a chance node and a utility over both, which the second agent may
// share; and beside them a chance node of 2^100 and a utility of the second agent over it.
fn two_parts(alloc: Global, wide: bool, dear: bool, shared: bool) -> Result<Diagram, AllocError>
    ensures { IfOk result (λ d. d ≡ two_parts wide dear shared) }
{
    let nodes = [
        decision(0, 2, &[]),
        chance(1, &[], weights(wide)),
        shared_utility(0, others(shared), &[0, 1], values(dear)),
        chance(1, &[], weights(false)),
        utility(1, &[3], &[1]),
    ];
    sample_diagram(alloc, &nodes, 2, 0)
}

// Each row has the choices of the two parts, and where their bound fails.
const BOUNDS: &[(bool, bool, bool, BoundPlace)] = &[
    // the product over all nodes is 2^201, and each part's is within the bound
    (false, false, false, BoundPlace::Within),
    // 2 * 2^125 passes at the chance node, in the decision's scope alone
    (true, false, false, BoundPlace::Node(1)),
    // 2 * 2^100 is within the bound, and 2 * 2^100 * 2^100 passes
    (false, true, false, BoundPlace::Utilities),
    // the second agent's scope has both parts, and the first agent's one of them
    (false, false, true, BoundPlace::Node(3)),
    // the decision fails before the second agent
    (true, true, true, BoundPlace::Node(1)),
];

// Where the bound of the two parts fails.
fn two_bound(
    alloc: Global,
    wide: bool,
    dear: bool,
    shared: bool,
) -> Result<BoundPlace, AllocError> {
    let diagram = two_parts(alloc, wide, dear, shared)?;
    Ok(bound(&diagram))
}

#[test]
fn each_scope_has_its_bound(rt: HostRuntime) -> Result<(), AllocError> {
    for &(wide, dear, shared, place) in BOUNDS {
        let found = two_bound(rt.alloc(), wide, dear, shared)?;
        assert_eq!(rt; found, place, "{wide} {dear} {shared}");
    }
    Ok(())
}

// Where the bound of the diagram with these nodes fails.
fn bound_of(
    alloc: Global,
    nodes: &[Sample],
    agents: usize,
    decimals: u32,
) -> Result<BoundPlace, AllocError>
    requires { PassesTests nodes.now agents decimals }
{
    let diagram = sample_diagram(alloc, nodes, agents, decimals)?;
    Ok(bound(&diagram))
}

#[test]
fn an_agent_without_a_utility_keeps_the_bound(rt: HostRuntime) -> Result<(), AllocError> {
    let alloc = rt.alloc();
    let found = [
        bound_of(alloc, &[], 1, 0)?,
        bound_of(alloc, &[chance(1, &[], &[GREATEST])], 1, 1)?,
        bound_of(alloc, &[utility(0, &[], &[-GREATEST])], 1, 30)?,
    ];
    let within = BoundPlace::Within;
    assert_eq!(rt; found, [within, within, within]);
    Ok(())
}

//! The limits of the program, each once: code and definitions cite these, and `node_sets` has the
//! most nodes.

/// The most states of a node.
pub const MOST_STATES: usize = 256;

/// The most parents of a node.
pub const MOST_PARENTS: usize = 16;

/// The most cells of one table or one rule.
pub const MOST_CELLS: usize = 65_536;

/// The most cells of all rules together.
pub const MOST_RULE_CELLS: usize = 262_144;

/// The most agents of a diagram.
pub const MOST_AGENTS: usize = 16;

/// The most decimals by which a diagram's utilities are scaled.
pub const MOST_DECIMALS: u32 = 30;

/// The most bytes of a name, a label or an agent.
pub const MOST_NAME_BYTES: usize = 255;

/// The greatest absolute value of a weight total, of a scaled utility and of the weight bound:
/// 2^126 - 1.
pub const GREATEST_NUMBER: u128 = (1 << 126) - 1;

/// The most leaves, worlds of a whole diagram, up to which a report is checked or an equilibrium is
/// searched: 2^20.
pub const MOST_LEAVES: u128 = 1_048_576;

/// The most pure profiles among which an equilibrium is searched.
pub const MOST_PROFILES: u128 = 65_536;

/// The most worlds that are listed over all pure profiles together: 2^24.
pub const MOST_LISTED: u128 = 16_777_216;

/// The most cells that the tables of one plan of elimination have together, and so of a workspace.
pub const MOST_PLAN_CELLS: usize = 4_194_304;

/// The most work of all plans of a run.
pub const MOST_WORK: u128 = 134_217_728;

/// Counts stop here: 10^18.
pub const COUNT_END: u128 = 1_000_000_000_000_000_000;

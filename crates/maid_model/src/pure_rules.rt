//! Rules that take one state in each row.

ghost use Rattle.std.specs.Prelude.{◌≡◌, ◌<◌, ◌++◌, IfOk, OnOk, length};
ghost use Rattle.maid_model.specs.Answers.{GivesProfile, GivesRule, TakesChoices, pure_profile, rows_at};
ghost use Rattle.maid_model.specs.Profiles.{HasRuleTotals, pure_row};

use crate::answers::{Answer, Row};
use crate::diagrams::{Diagram, Kind};
use crate::profiles::{Profile, Rule};
use std::alloc::{AllocError, Global};

// Appends weight 1 at the choice and 0 at the other states.
fn push_row(weights: &mut Vec<u128>, states: usize, choice: usize) -> Result<(), AllocError>
    ensures { OnOk result (weights.new.items ≡ weights.old.items ++ pure_row states choice) }
{
    for state in 0..states {
        weights.push(u128::from(state == choice))?;
    }
    Ok(())
}

// The rows answered at the decision, none where it has no answer.
fn rows_at(answers: &[Answer], decision: usize) -> &[Row]
    ensures { result.now ≡ rows_at answers.now decision }
{
    for answer in answers {
        if answer.decision == decision {
            return &answer.rows;
        }
    }
    &[]
}

impl Rule {
    /// The rule of total 1 that takes in each row the answered choice.
    pub fn pure(
        alloc: Global,
        diagram: &Diagram,
        decision: usize,
        rows: &[Row],
    ) -> Result<Rule, AllocError>
        requires { decision < length diagram.now.nodes }
        ensures choices { IfOk result (TakesChoices diagram.now.nodes decision rows.now) }
        // It is a rule of the decision where there is a choice in range for each row of the
        // parents' states.
        ensures rule { GivesRule diagram.now.nodes decision rows.now result }
    {
        let states = diagram.states(decision);
        let mut weights = Vec::new(alloc);
        for row in rows {
            push_row(&mut weights, states, row.choice)?;
        }
        Ok(Rule {
            decision,
            total: 1,
            weights,
        })
    }
}

impl Profile {
    /// The profile of the answered choices: at each decision the rule of total 1 that takes them.
    pub fn pure(alloc: Global, diagram: &Diagram, answers: &[Answer]) -> Result<Profile, AllocError>
        ensures rules { IfOk result (λ p. p ≡ pure_profile diagram.now.nodes answers.now) }
        ensures total { IfOk result (HasRuleTotals diagram.now.nodes (λ v. 1)) }
        ensures profile { GivesProfile diagram.now.nodes answers.now result }
    {
        let mut rules = Vec::new(alloc);
        for v in 0..diagram.count() {
            if let Kind::Decision = diagram.kind(v) {
                rules.push(Rule::pure(alloc, diagram, v, rows_at(answers, v))?)?;
            }
        }
        Ok(Profile::from_rules(rules))
    }
}

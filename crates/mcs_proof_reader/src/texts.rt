//! The texts that lines of a report may contain.

ghost use Rattle.std.specs.Prelude.{◌≡◌, map, length, IfOk};
ghost use Rattle.mcs_system.specs.Seen.{bridge_of, item_of, read_of};
ghost use Rattle.mcs_system.specs.Systems.{variables};
ghost use Rattle.mcs_evidence.specs.Defaults.{defaults_of};
ghost use Rattle.mcs_proof_reader.specs.Questions.{variable_texts, ten};
ghost use Rattle.mcs_proof_reader.specs.Readers.{AreTexts};

use mcs_base::{Memory, Text};
use mcs_system::{Bridge, Name, Read, System, TheoryItem};
use mcs_writer::push_read;
use std::alloc::Global;

/// The texts that lines of a report on a system may contain: its variables, the names of its rules,
/// and the numbers of defaults.
pub struct Texts {
    pub(crate) variables: Vec<Text>,
    pub(crate) rules: Vec<Text>,
    pub(crate) numbers: Vec<Text>,
}

impl Drop for Texts {
    fn drop(self) {
        let Texts {
            variables: _,
            rules: _,
            numbers: _,
        } = self;
    }
}

/// The variables, as they are printed.
fn variable_texts(alloc: Global, system: &System, reads: &[Read]) -> Result<Vec<Text>, Memory>
    requires { map read_of reads.now ≡ variables system.now }
    ensures { IfOk result (λ texts. texts.items ≡ variable_texts system.now) }
{
    let mut texts = Vec::new(alloc);
    for read in reads {
        let mut text = Text::new(alloc);
        push_read(&mut text, system, read)?;
        texts.push(text)?;
    }
    Ok(texts)
}

/// The names as texts.
pub fn name_texts(alloc: Global, names: &[Name]) -> Result<Vec<Text>, Memory>
    ensures { IfOk result (λ texts. texts.items ≡ names.now) }
{
    let mut texts = Vec::new(alloc);
    for name in names {
        let mut text = Text::new(alloc);
        text.push(name.bytes())?;
        texts.push(text)?;
    }
    Ok(texts)
}

/// The names of the bridge rules as texts.
fn rule_texts(alloc: Global, bridges: &[Bridge]) -> Result<Vec<Text>, Memory>
    ensures { IfOk result (λ texts. texts.items ≡ map (λ b. (bridge_of b).name) bridges.now) }
{
    let mut texts = Vec::new(alloc);
    for bridge in bridges {
        let mut text = Text::new(alloc);
        text.push(bridge.name.bytes())?;
        texts.push(text)?;
    }
    Ok(texts)
}

/// The numbers from 1 to 10.
#[tactic(auto, using(crate::proofs::Decimals::decimals_more))]
fn number_texts(alloc: Global) -> Result<Vec<Text>, Memory>
    ensures { IfOk result (λ texts. texts.items ≡ ten) }
{
    let mut texts = Vec::new(alloc);
    for number in 0..10u64 {
        let mut text = Text::new(alloc);
        text.push_number(1 + number)?;
        texts.push(text)?;
    }
    Ok(texts)
}

/// How many justifications each default of the theory has.
pub fn just_counts(alloc: Global, items: &[TheoryItem]) -> Result<Vec<usize>, Memory>
    ensures { IfOk result (λ counts. counts.items
        ≡ map (λ d. length d.justs) (defaults_of (map item_of items.now))) }
{
    let mut counts = Vec::new(alloc);
    for item in items {
        if let TheoryItem::Rule(default) = item {
            counts.push(default.justs.len())?;
        }
    }
    Ok(counts)
}

impl Texts {
    /// The texts for this system.
    pub fn of(alloc: Global, system: &System) -> Result<Texts, Memory>
        ensures { IfOk result (AreTexts system.now) }
    {
        let variables = variable_texts(alloc, system, system.variables())?;
        let rules = rule_texts(alloc, system.bridges())?;
        match number_texts(alloc) {
            Ok(numbers) => Ok(Texts {
                variables,
                rules,
                numbers,
            }),
            Err(want) => Err(want),
        }
    }

    /// The numbers of defaults, from 1, as texts.
    pub fn numbers(&self) -> &[Text]
        ensures { result.now ≡ self.now.numbers.items }
    {
        &self.numbers
    }
}

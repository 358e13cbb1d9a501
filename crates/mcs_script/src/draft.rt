//! A system that is edited many times. No edit reads the contexts.

ghost use Rattle.std.specs.Prelude.{◌≡◌, ◌<◌, ◌++◌, [], ◌∷◌, IfErr, IfOk, IsTrue, OnOk};
ghost use Rattle.std.specs.Prelude.{length, map};
ghost use Rattle.mcs_system.specs.Built.{IsFaultOf};
ghost use Rattle.mcs_system.specs.Faults.{IsValid, reads_of};
ghost use Rattle.mcs_system.specs.Logic.{is_in};
ghost use Rattle.mcs_system.specs.Seen.{bridge_of, read_of};
ghost use Rattle.mcs_script.specs.Drafts.{AreShares, AreWithin, drafted};
ghost use Rattle.mcs_script.specs.Edits.{Added, Dropped, edited, rule_names};
ghost use Rattle.mcs_script.specs.Found.{AreFound, IsShare};
ghost use Rattle.mcs_script.specs.Seen.{edit_of};
ghost use Rattle.std.specs.List.{flat_map};

use crate::edit::Edit;
use crate::fits::{fits, has_rule};
use crate::found::find_reads_of;
use crate::rules::{copied_rules, drop_rule, with_valid_rules};
use crate::share::{Share, find_more, reads_of, share_of};
use mcs_base::Memory;
use mcs_system::{Bridge, BuildFault, Limit, Name, Read, System};
use std::alloc::Global;
use std::marker::Model;
use std::mem;

/// What each context has by the rules.
fn shares_of(alloc: Global, bare: &System, rules: &[Bridge]) -> Result<Vec<Share>, Memory>
    ensures { IfOk result
        (λ shares. AreShares bare.now.contexts (map bridge_of rules.now) shares.items) }
{
    let mut shares = Vec::new(alloc);
    for context in 0..bare.contexts().len() {
        shares.push(share_of(alloc, bare, context as u32, rules)?)?;
    }
    Ok(shares)
}

/// Adds what the rules would read with this one. If too much is found, it is found anew.
fn add_reads(
    alloc: Global,
    rules: &[Bridge],
    rule: &Bridge,
    reads: &mut Vec<Read>,
) -> Result<(), Memory>
    requires { AreFound (flat_map reads_of (map bridge_of rules.now)) (map read_of reads.old.items) }
    ensures { OnOk result (AreFound
        (flat_map reads_of (map bridge_of rules.now ++ bridge_of rule.now ∷ []))
        (map read_of reads.new.items)) }
{
    find_reads_of(alloc, rule, reads)?;
    if reads.len() <= Limit::Variables.most() {
        return Ok(());
    }
    let mut again = reads_of(alloc, rules)?;
    find_reads_of(alloc, rule, &mut again)?;
    drop(mem::replace(reads, again));
    Ok(())
}

/// Adds what the context would have with the rule. If too much is found, it is found anew.
fn add_share(
    alloc: Global,
    bare: &System,
    context: u32,
    rules: &[Bridge],
    rule: &Bridge,
    share: &mut Share,
) -> Result<(), Memory>
    requires in_range { context < length bare.now.contexts }
    requires share { IsShare context bare.now.contexts (map bridge_of rules.now) share.old }
    ensures { OnOk result (IsShare context bare.now.contexts
        (map bridge_of rules.now ++ bridge_of rule.now ∷ []) share.new) }
{
    find_more(alloc, context, rule, share)?;
    if share.is_within() {
        return Ok(());
    }
    let mut again = share_of(alloc, bare, context, rules)?;
    find_more(alloc, context, rule, &mut again)?;
    drop(mem::replace(share, again));
    Ok(())
}

/// Adds what each context would have with the rule.
fn add_shares(
    alloc: Global,
    bare: &System,
    rules: &[Bridge],
    rule: &Bridge,
    shares: &mut [Share],
) -> Result<(), Memory>
    requires { AreShares bare.now.contexts (map bridge_of rules.now) shares.old }
    ensures { OnOk result (AreShares bare.now.contexts
        (map bridge_of rules.now ++ bridge_of rule.now ∷ []) shares.new) }
{
    for context in 0..bare.contexts().len() {
        add_share(
            alloc,
            bare,
            context as u32,
            rules,
            rule,
            &mut shares[context],
        )?;
    }
    Ok(())
}

/// Whether by what was found no limit is exceeded.
fn are_within(reads: &[Read], shares: &[Share]) -> bool
    ensures { IsTrue result → AreWithin reads.now shares.now }
{
    reads.len() <= Limit::Variables.most() && shares.iter().all(Share::is_within)
}

/// Tests whether the contexts and rules make a system, where this is not known yet.
fn test(alloc: Global, bare: &System, rules: &[Bridge], known: bool) -> Result<(), BuildFault>
    requires { IsTrue known → IsValid (drafted bare.now rules.now) }
    ensures ok { OnOk result (IsValid (drafted bare.now rules.now)) }
    ensures fault { IfErr result (IsFaultOf (drafted bare.now rules.now)) }
{
    if known {
        return Ok(());
    }
    let rules = copied_rules(alloc, rules)?;
    drop(bare.copy(alloc)?.with_rules(alloc, rules)?);
    Ok(())
}

/// A system that is edited. It shares the contexts of the system that it was made from. What an edit
/// takes does not depend on the size of the contexts, and hardly on the number of rules.
pub struct Draft {
    /// The contexts alone.
    bare: System,
    rules: Vec<Bridge>,
    /// The variables, and maybe further reads.
    reads: Vec<Read>,
    shares: Vec<Share>,
}

impl Drop for Draft {
    fn drop(self) {
        let Draft {
            bare: _,
            rules: _,
            reads: _,
            shares: _,
        } = self;
    }
}

impl Model for Draft {
    ghost use Rattle.mcs_system.specs.Codes.{coded_system};
    ghost use Rattle.mcs_system.specs.Plain as plain;
    ghost use Rattle.mcs_script.specs.Drafts.{drafted, IsDraft};

    ghost Value = { plain.System };

    ghost coded = { coded_system };

    ghost view = { λ d. drafted d.bare d.rules.items };

    ghost invariant = { λ d. IsDraft d.bare d.rules.items d.reads.items d.shares.items };
}

impl Draft {
    /// The system as it is.
    pub fn of(alloc: Global, system: &System) -> Result<Draft, Memory>
        ensures { IfOk result (λ d. d ≡ system.now) }
    {
        let rules = copied_rules(alloc, system.bridges())?;
        let bare = with_valid_rules(alloc, system, Vec::new(alloc))?;
        let reads = reads_of(alloc, &rules)?;
        let shares = shares_of(alloc, &bare, &rules)?;
        Ok(Draft {
            bare,
            rules,
            reads,
            shares,
        })
    }

    /// The system as it is now.
    pub fn system(&self, alloc: Global) -> Result<System, Memory>
        ensures { IfOk result (λ s. s ≡ self.now) }
    {
        let rules = copied_rules(alloc, &self.rules)?;
        with_valid_rules(alloc, &self.bare, rules)
    }

    /// Whether some rule has the name.
    pub fn has_rule(&self, name: &Name) -> bool
        ensures { result ≡ is_in name.now (rule_names self.now) }
    {
        has_rule(&self.rules, name)
    }

    /// The system with the rule, or its fault.
    fn with_rule(self, alloc: Global, rule: &Bridge) -> Result<Draft, BuildFault>
        ensures ok { IfOk result (λ d. (d ≡ edited self (Added (bridge_of rule.now))) × IsValid d) }
        ensures fault { IfErr result (IsFaultOf (edited self (Added (bridge_of rule.now)))) }
    {
        let Draft {
            bare,
            mut rules,
            mut reads,
            mut shares,
        } = self;
        let is_fitting = fits(bare.contexts(), &rules, rule);
        add_reads(alloc, &rules, rule, &mut reads)?;
        add_shares(alloc, &bare, &rules, rule, &mut shares)?;
        rules.push(rule.copy(alloc)?)?;
        let known = is_fitting && are_within(&reads, &shares);
        test(alloc, &bare, &rules, known)?;
        Ok(Draft {
            bare,
            rules,
            reads,
            shares,
        })
    }

    /// The system without the rule of this name.
    fn without_rule(self, name: &Name) -> Draft
        ensures { (result ≡ edited self (Dropped name.now)) × IsValid result }
    {
        let Draft {
            bare,
            mut rules,
            reads,
            shares,
        } = self;
        drop_rule(&mut rules, name);
        Draft {
            bare,
            rules,
            reads,
            shares,
        }
    }

    /// The system after the edit, or the fault that it would have.
    pub fn edited(self, alloc: Global, edit: &Edit) -> Result<Draft, BuildFault>
        ensures ok { IfOk result (λ d. (d ≡ edited self (edit_of edit.now)) × IsValid d) }
        ensures fault { IfErr result (IsFaultOf (edited self (edit_of edit.now))) }
    {
        match edit {
            Edit::Add(rule) => self.with_rule(alloc, rule),
            Edit::Drop(name) => Ok(self.without_rule(name)),
            Edit::List => Ok(self),
        }
    }
}

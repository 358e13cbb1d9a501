//! Edit sessions.

ghost use Rattle.std.specs.Prelude.{◌≡◌, ◌≤◌, [], IfErr, IfOk, OnErr, OnOk, false, length, map};
ghost use Rattle.std.specs.Prelude.{true};
ghost use Rattle.std.specs.Arc.{arc_value};
ghost use Rattle.std.specs.List.{AllByRecursion};
ghost use Rattle.mcs_system.specs.Built.{IsFaultOf};
ghost use Rattle.mcs_script.specs.Edits.{edited, system_after, AreAllowed, IsThere};
ghost use Rattle.mcs_script.specs.Seen.{edit_of};
ghost use Rattle.mcs_session.specs.Asked.{all_keys};
ghost use Rattle.mcs_session.specs.Inside.{AreHome, AreOpen, AreReturned, AreSettled, IsUnasked};
ghost use Rattle.mcs_session.specs.Inside.{no_keys};
ghost use Rattle.mcs_session.specs.Sessions.{of_system, session_of, AreLent, HasBack};
ghost use Rattle.mcs_session.specs.Sessions.{HasRenewedSome, MayComeBack};

use crate::answers::Answers;
use crate::asked::{Asked, close, open};
use crate::asker::Asker;
use crate::oracle::KeptOracle;
use mcs_base::Memory;
use mcs_script::{Edit, edited, system_after};
use mcs_system::{BuildFault, System};
use std::alloc::Global;
use std::marker::Model;
use std::mem;
use std::sync::Arc;

/// A system that is edited and listed again and again. It keeps the answers that its contexts give:
/// a listing asks nothing whose key was asked by an earlier one.
pub struct Session<A: Asker> {
    system: Arc<System>,
    // One for each context. While they are lent there are none.
    oracles: Vec<KeptOracle<A>>,
    // For each context.
    asked: Vec<Vec<Asked>>,
    lent: bool,
}

impl<A: Asker> Drop for Session<A> {
    fn drop(self) {
        let Session {
            system: _,
            oracles: _,
            asked: _,
            lent: _,
        } = self;
    }
}

impl<A: Asker> Model for Session<A> {
    ghost use Rattle.std.specs.Arc.{arc_value};
    ghost use Rattle.mcs_session.specs.Asked.{all_keys};
    ghost use Rattle.mcs_session.specs.Codes.{coded_session};
    ghost use Rattle.mcs_session.specs.Inside.{IsSession};
    ghost use Rattle.mcs_session.specs.Sessions.{SessionState, session_of};

    ghost Value = { SessionState };

    ghost coded = { coded_session };

    ghost view = { λ s. session_of (arc_value s.system) (all_keys s.asked.items) s.lent };

    ghost invariant = { λ s. IsSession (arc_value s.system) s.oracles.items s.asked.items s.lent };
}

/// An oracle for each context of the system, in order, for which nothing is kept yet.
fn new_oracles<A: Asker>(
    alloc: Global,
    system: &Arc<System>,
    askers: Vec<A>,
) -> Result<Vec<KeptOracle<A>>, Memory>
    requires one_each { length askers.items ≡ length (arc_value system.now).contexts }
    requires unasked { AllByRecursion (λ a. A.journal a ≡ []) askers.items }
    ensures { IfOk result (λ oracles. AreHome (arc_value system.now).contexts
        (no_keys (arc_value system.now)) oracles.items) }
{
    let mut oracles = Vec::with_capacity(alloc, system.contexts().len())?;
    for asker in askers {
        let context = oracles.len() as u32;
        let shared = system.clone()?;
        oracles.push(KeptOracle::new(alloc, shared, context, asker)?)?;
    }
    Ok(oracles)
}

/// For each context of the system that nothing was asked.
fn nothing_asked(alloc: Global, system: &System) -> Result<Vec<Vec<Asked>>, Memory>
    ensures { IfOk result (λ asked. all_keys asked.items ≡ no_keys system.now) }
{
    let mut asked = Vec::new(alloc);
    for _ in 0..system.contexts().len() {
        asked.push(Vec::new(alloc))?;
    }
    Ok(asked)
}

/// Opens the questions of the next listing for each context.
fn open_all(alloc: Global, asked: &mut [Vec<Asked>], system: &Arc<System>) -> Result<(), Memory>
    requires { length asked.old ≡ length (arc_value system.now).contexts }
    ensures open { OnOk result (AreOpen (arc_value system.now) asked.new) }
    ensures same { all_keys asked.new ≡ all_keys asked.old }
{
    for context in 0..system.contexts().len() {
        open(alloc, &mut asked[context], system, context as u32)?;
    }
    Ok(())
}

/// Makes the oracles those of this system. Want of memory leaves the rest of them as they are.
fn renew_all<A: Asker>(
    alloc: Global,
    oracles: &mut [KeptOracle<A>],
    system: &Arc<System>,
) -> Result<(), Memory>
    requires { AllByRecursion (IsUnasked (arc_value system.now)) oracles.old }
    ensures ok { OnOk result (oracles.new ≡ map (of_system (arc_value system.now)) oracles.old) }
    ensures err { OnErr result (HasRenewedSome (arc_value system.now) oracles.old oracles.new) }
{
    for oracle in oracles.iter_mut() {
        let shared = system.clone()?;
        oracle.renew(alloc, shared)?;
    }
    Ok(())
}

/// Settles the oracles, puts what they solved where room was made for it, and counts the different
/// keys that they were asked. No memory is needed.
fn settle_all<A: Asker>(
    system: &System,
    asked: &mut [Vec<Asked>],
    oracles: &mut [KeptOracle<A>],
) -> Answers
    requires { AreReturned system.now asked.old oracles.old }
    ensures settled { AreSettled (length system.now.contexts) system.now asked.old oracles.old
        asked.new oracles.new result.new result.kept }
    ensures few { result.new ≤ 262144 }
{
    let mut answers = Answers { new: 0, kept: 0 };
    for context in 0..system.contexts().len() {
        let settled = oracles[context].settle();
        answers.new += settled.solved.len() as u64;
        answers.kept += settled.kept;
        close(&mut asked[context], settled.solved);
    }
    answers
}

impl<A: Asker> Session<A> {
    /// A session of the system, with an asker for each context, in order. Nothing was asked yet:
    /// the journals of the askers have to be empty.
    pub fn new(alloc: Global, system: System, askers: Vec<A>) -> Result<Session<A>, Memory>
        requires one_each { length askers.items ≡ length system.contexts }
        requires unasked { AllByRecursion (λ a. A.journal a ≡ []) askers.items }
        ensures { IfOk result (λ s. s ≡ session_of system (map (λ _. []) system.contexts) false) }
    {
        let system = Arc::new(alloc, system)?;
        let oracles = new_oracles(alloc, &system, askers)?;
        let asked = nothing_asked(alloc, &system)?;
        Ok(Session {
            system,
            oracles,
            asked,
            lent: false,
        })
    }

    /// Edits the system; a listing that is asked for changes nothing. A rule that is dropped has to
    /// be there, and no oracles may be lent. If the edited system has a fault, the answer is the
    /// one of `System::build`. Then, and if memory runs out, the session is as before.
    pub fn edit(&mut self, alloc: Global, edit: &Edit) -> Result<(), BuildFault>
        requires there { IsThere self.old.system (edit_of edit.now) }
        requires home { self.old.lent ≡ false }
        ensures ok { OnOk result (self.new
            ≡ session_of (edited self.old.system (edit_of edit.now)) self.old.journals false) }
        ensures fault { IfErr result (IsFaultOf (edited self.old.system (edit_of edit.now))) }
        ensures unchanged { OnErr result (self.new ≡ self.old) }
    {
        let next = edited(alloc, self.system.copy(alloc)?, edit)?;
        self.system = Arc::new(alloc, next)?;
        Ok(())
    }

    /// Edits the system by each of these, one after the other, and makes one system in all. Each has
    /// to be allowed: a rule that is dropped is there, and the edited system has no fault. No oracles
    /// may be lent. If memory runs out, the session is as before.
    pub fn edit_all(&mut self, alloc: Global, edits: &[Edit]) -> Result<(), Memory>
        requires allowed { AreAllowed self.old.system (map edit_of edits.now) }
        requires home { self.old.lent ≡ false }
        ensures ok { OnOk result (self.new ≡ session_of
            (system_after self.old.system (map edit_of edits.now)) self.old.journals false) }
        ensures unchanged { OnErr result (self.new ≡ self.old) }
    {
        if edits.is_empty() {
            return Ok(());
        }
        let next = system_after(alloc, &self.system, edits)?;
        self.system = Arc::new(alloc, next)?;
        Ok(())
    }

    /// The system as it is. No memory is needed.
    pub fn system(&self) -> &Arc<System>
        ensures { arc_value result.now ≡ self.now.system }
    {
        &self.system
    }

    /// The oracles of the contexts of the system as it is, in order. None may be lent. If memory
    /// runs out, none are lent.
    pub fn lend(&mut self, alloc: Global) -> Result<Vec<KeptOracle<A>>, Memory>
        requires { self.old.lent ≡ false }
        ensures oracles { IfOk result (λ oracles. AreLent self.old oracles.items) }
        ensures lent { OnOk result (self.new
            ≡ session_of self.old.system self.old.journals true) }
        ensures err { OnErr result (self.new ≡ self.old) }
    {
        open_all(alloc, &mut self.asked, &self.system)?;
        renew_all(alloc, &mut self.oracles, &self.system)?;
        self.lent = true;
        Ok(mem::replace(&mut self.oracles, Vec::new(alloc)))
    }

    /// Takes the oracles back that were lent, in order, whatever they were asked since. Tells how
    /// many different keys that were: new ones, and ones that were kept. From now on the new ones
    /// are kept too. No memory is needed.
    pub fn give_back(&mut self, oracles: Vec<KeptOracle<A>>) -> Answers
        requires lent { self.old.lent ≡ true }
        requires own { MayComeBack self.old oracles.items }
        ensures back { HasBack self.old oracles.items self.new result.new result.kept }
        ensures same { (self.new.system ≡ self.old.system) × (self.new.lent ≡ false) }
        ensures few { result.new ≤ 262144 }
    {
        let mut oracles = oracles;
        let answers = settle_all(&self.system, &mut self.asked, &mut oracles);
        self.lent = false;
        drop(mem::replace(&mut self.oracles, oracles));
        answers
    }
}

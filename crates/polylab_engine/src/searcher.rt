//! A search by one of the tables. Where none was asked for it may go on by the other one.
ghost use Rattle.std.specs.Prelude.{◌≡◌, Option, IfOk, IfSome};
ghost use Rattle.std.specs.Option.{ForSome};
ghost use Rattle.shared_words.specs.Answers.{Returns};
ghost use Rattle.cover_problem.specs.Problem.{IsProblem};
ghost use Rattle.x_steps.specs.StateValue.{start, done};
ghost use Rattle.x_steps.specs.StateView.{state_value, IsState};
ghost use Rattle.x_steps.specs.Steps.{Fits};
ghost use Rattle.x_steps.specs.Resume.{position};
ghost use Rattle.polylab_engine.specs.declared.tables.TableKind.{TableKind};
ghost use Rattle.polylab_engine.specs.Searcher.{machine_value, stands, kind_of, HasTable};

use crate::tables::TableKind;
use cover_bits::{BitTable, has_room};
use cover_links::LinkTable;
use cover_problem::{Problem, Table};
use std::alloc::{AllocError, Global};
use table_probe::prefers_bits;
use x_steps::{Cursor, Label, Machine, State};

/// A machine with one of the tables.
#[derive(Drop)]
pub enum AnyMachine<'p> {
    Links(Machine<'p, LinkTable>),
    Bits(Machine<'p, BitTable>),
}

/// A search that is taken on by one worker.
#[derive(Drop)]
pub struct Searcher<'p> {
    pub machine: AnyMachine<'p>,
    /// Whether no table was asked for.
    pub is_free: bool,
}

/// A machine at a state of a problem's search.
pub fn machine_at<'p, T: Table>(
    alloc: Global,
    problem: &'p Problem,
    state: &State,
) -> Result<Machine<'p, T>, AllocError>
    requires { IsState problem.now state.now }
    ensures { Returns result (position problem.now (state_value state.now)) }
{
    let table = T::new(alloc, problem)?;
    match Machine::new(alloc, problem, table) {
        Ok(machine) => {
            // As `requires` says, the state is one of the problem's run: on the way there nothing has to be judged.
            let mut machine = machine;
            machine.move_to(state);
            Ok(machine)
        }
        Err(_) => Err(AllocError),
    }
}

/// The first state of a search.
pub fn first_state(alloc: Global) -> State
    ensures { state_value result ≡ start }
{
    State {
        label: Label::X1,
        path: Vec::new(alloc),
        cursor: Cursor::None,
    }
}

/// The state after the last step of a search.
pub fn last_state(alloc: Global) -> State
    ensures { state_value result ≡ done }
{
    State {
        label: Label::Done,
        path: Vec::new(alloc),
        cursor: Cursor::None,
    }
}

/// By bits at the same state, if they have room, a short search from there on prefers them, and there is memory for them.
fn by_bits<'p>(alloc: Global, links: &mut Machine<'p, LinkTable>) -> Option<AnyMachine<'p>>
    ensures same { links.new ≡ links.old }
    ensures better { IfSome result (λ m. machine_value m ≡ links.old) }
{
    // The short search goes back, so that no table is made again where links are taken.
    if !has_room(links.problem(), 1) || !prefers_bits(alloc, links) {
        return None;
    }
    match machine_at::<BitTable>(alloc, links.problem(), links.state()) {
        Ok(bits) => Some(AnyMachine::Bits(bits)),
        Err(_) => None,
    }
}

/// By links at the same state, if a short search from there on prefers them and there is memory for them.
fn by_links<'p>(alloc: Global, bits: &Machine<'p, BitTable>) -> Option<AnyMachine<'p>>
    ensures { IfSome result (λ m. machine_value m ≡ bits.now) }
{
    // Links tell what either table would pay, and at large problems sooner than bits, which have to look for each option of a list.
    match machine_at::<LinkTable>(alloc, bits.problem(), bits.state()) {
        Ok(links) => {
            let mut links = links;
            if prefers_bits(alloc, &mut links) {
                None
            } else {
                Some(AnyMachine::Links(links))
            }
        }
        Err(_) => None,
    }
}

/// By the table that a short search prefers.
fn first_preferred<'p>(
    alloc: Global,
    problem: &'p Problem,
    state: &State,
) -> Result<AnyMachine<'p>, AllocError>
    requires { IsState problem.now state.now }
    ensures { IfOk result (λ m. machine_value m ≡ position problem.now (state_value state.now)) }
{
    let mut links = machine_at(alloc, problem, state)?;
    match by_bits(alloc, &mut links) {
        Some(bits) => Ok(bits),
        None => Ok(AnyMachine::Links(links)),
    }
}

/// By the table that is asked for, or else by the one that is preferred there. Bits that would take more than they may end as want of
/// memory does, and are not begun.
fn any_at<'p>(
    alloc: Global,
    problem: &'p Problem,
    table: Option<TableKind>,
    state: &State,
) -> Result<AnyMachine<'p>, AllocError>
    requires { IsState problem.now state.now }
    ensures position { IfOk result (λ m. machine_value m ≡ position problem.now (state_value state.now)) }
    ensures kind { IfOk result (λ m. ForSome table (λ kind. kind_of m ≡ kind)) }
{
    match table {
        None => first_preferred(alloc, problem, state),
        Some(TableKind::Links) => Ok(AnyMachine::Links(machine_at(alloc, problem, state)?)),
        Some(TableKind::Bits) => {
            if !has_room(problem, 1) {
                return Err(AllocError);
            }
            Ok(AnyMachine::Bits(machine_at(alloc, problem, state)?))
        }
    }
}

impl<'p> Searcher<'p> {
    /// A search at a state of a problem's run, by the table that is asked for, if one is.
    pub fn at(
        alloc: Global,
        problem: &'p Problem,
        table: Option<TableKind>,
        state: &State,
    ) -> Result<Searcher<'p>, AllocError>
        requires { IsState problem.now state.now }
        ensures position { IfOk result (λ s. stands s ≡ position problem.now (state_value state.now)) }
        ensures table { IfOk result (HasTable table) }
    {
        let machine = any_at(alloc, problem, table, state)?;
        Ok(Searcher {
            machine,
            is_free: table.is_none(),
        })
    }

    /// A search at the start of a problem's run.
    pub fn new(
        alloc: Global,
        problem: &'p Problem,
        table: Option<TableKind>,
    ) -> Result<Searcher<'p>, AllocError>
        ensures position { IfOk result (λ s. stands s ≡ position problem.now start) }
        ensures table { IfOk result (HasTable table) }
    {
        let state = first_state(alloc);
        Searcher::at(alloc, problem, table, &state)
    }

    /// Goes on by the table that is preferred from here on, where none was asked for.
    pub fn ask_again(&mut self, alloc: Global)
        ensures position { stands self.new ≡ stands self.old }
        ensures table { (asked : Option TableKind) → HasTable asked self.old → HasTable asked self.new }
    {
        if !self.is_free {
            return;
        }
        let better = match &mut self.machine {
            AnyMachine::Links(links) => by_bits(alloc, links),
            AnyMachine::Bits(bits) => by_links(alloc, bits),
        };
        if let Some(machine) = better {
            self.machine = machine;
        }
    }

    /// The table that it goes on by.
    pub fn kind(&self) -> TableKind
        ensures { result ≡ kind_of self.now.machine }
    {
        match &self.machine {
            AnyMachine::Links(_) => TableKind::Links,
            AnyMachine::Bits(_) => TableKind::Bits,
        }
    }

    /// The search is at a state of its problem's run.
    pub fn stands_in_run(&self)
        ensures fits { Fits (stands self.now).problem (stands self.now).state }
        ensures problem { IsProblem (stands self.now).problem }
    {
        // Where the state is read, what a machine keeps true is known.
        let _state = self.state();
    }

    /// The problem that is searched.
    pub fn problem(&self) -> &'p Problem
        ensures { result.now ≡ (stands self.now).problem }
    {
        match &self.machine {
            AnyMachine::Links(machine) => machine.problem(),
            AnyMachine::Bits(machine) => machine.problem(),
        }
    }

    /// Where the search stands.
    pub fn state(&self) -> &State
        ensures state { state_value result.now ≡ (stands self.now).state }
        ensures fits { Fits (stands self.now).problem (stands self.now).state }
        ensures problem { IsProblem (stands self.now).problem }
    {
        match &self.machine {
            AnyMachine::Links(machine) => machine.state(),
            AnyMachine::Bits(machine) => machine.state(),
        }
    }
}

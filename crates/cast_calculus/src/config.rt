ghost use Rattle.std.specs.Prelude.{◌≡◌, [], ◌∷◌, ◌++◌, ◌+◌, ◌<◌, ◌≤◌, ◌^◌, min, length, nat_lt, IfOk, is_some, slice_get, slice_set, None, Some};
ghost use Rattle.std.specs.Option.{option_copied};
ghost use Rattle.mono_tree.specs.CastScripts.{target_of};
ghost use Rattle.cast_machine.specs.Heap.{cell_at};
ghost use Rattle.cast_machine.specs.Rows.{fit_top};
ghost use Rattle.cast_machine.specs.Calls.{take_args, print_args, words_of};
ghost use Rattle.cast_machine.specs.Step.{act, first_end, changed, frame_items, frames_items, items_of, fueled, placed, counted, heeds, moved, top_step, thread_step, step_of, taken_out, start_of, main_frame, observed};
ghost use Rattle.cast_calculus.specs.Fueled.{IsFueled, AreFueled, IsBegun, IsFresh};
ghost use Rattle.mono_syntax.specs.Limits.{most_items};
ghost use Rattle.cast_machine.specs.Safety.{waits};
ghost use Rattle.cast_calculus.specs.computed.Runnable.{state_runs, able_threads, can_step};

use calculus_calls::{
    all_finished, begin, call, enter, fall, finished, join, leave, new_object, take_args, unbound,
};
use calculus_cells::{Demand, Writing, fit_at, fit_top, obligation, read, write};
use calculus_data::{Heap, copy_lines, copy_threads, fails, goes};
use calculus_rows::{
    begin_turn, binary, block, branch, eval, forget, neg, not, short, statement_row, store, turn,
};
use cast_machine::{Cell, Change, End, Frame, Observation, Outcome, Settings, State, Thread, Work};
use mono_list::{Shared, Slots, Stack};
use mono_syntax::{CastScript, Ty};
use sqlite_items::Items;
use std::alloc::{AllocError, Global};
use std::marker::Model;

const MOST_ITEMS: u64 = mono_syntax::MOST_ITEMS as u64;

/// A configuration of a run: the heap, the threads, the printed lines, the end once it is recorded, and the limits.
#[derive(Drop)]
pub struct Config {
    settings: Settings,
    heap: Heap,
    observation: Observation,
    words: u64,
    threads: Slots<Thread>,
}

impl Model for Config {
    ghost use Rattle.std.specs.Prelude.{◌≡◌, ◌≤◌, ◌^◌, ◌-◌, min};
    ghost use Rattle.std.specs.Coded.{codes};
    ghost use Rattle.cast_machine.specs.Step.{Configuration};
    ghost use Rattle.cast_machine.specs.Calls.{words_of};
    ghost use Rattle.cast_calculus.specs.Fueled.{AreFueled};
    ghost use Rattle.cast_machine.specs.contracts.data.Object as object;
    ghost use Rattle.cast_machine.specs.contracts.data.Thread as thread;
    ghost use Rattle.mono_syntax.specs.contracts.value.Val as value;

    ghost Value = { Configuration };

    ghost coded = { Prim.hlevel (codes, object.the_row.coded, thread.the_row.coded, value.the_row.coded) };

    ghost view = { λ c. record { settings = c.settings; heap = c.heap; lines = c.observation.lines; threads = c.threads; end = c.observation.end } };

    ghost invariant = { λ c. (c.words ≡ min (words_of c.observation.lines) (2 ^ 64 - 1)) × (1 ≤ c.settings.fuel) × (c.settings.fuel ≤ 2 ^ 40) × AreFueled c.settings.fuel c.threads };
}

/// The items of a frame, or the limit and one where there are more.
fn frame_items(frame: &Frame) -> u64
    ensures { result ≡ min (frame_items frame.now) (most_items + 1) }
{
    let most = MOST_ITEMS + 1;
    let names = (frame.names.entries().len() as u64).min(most);
    let handles = (frame.handles.entries().len() as u64).min(most);
    let work = (frame.work.len() as u64).min(most);
    let values = (frame.values.len() as u64).min(most);
    (1 + names + handles + work + values).min(most)
}

/// The items of some frames, with so many counted before them.
#[tactic(auto, using(calculus_data::proofs::Pushed::counting))]
fn more_items(first: u64, below: &Stack<Frame>) -> u64
    requires { first ≤ most_items + 1 }
    ensures { result ≡ min (first + frames_items below.now) (most_items + 1) }
{
    let mut items = first;
    for at in 0..below.len() as u64 {
        let Some(frame) = below.peek(at) else {
            return items;
        };
        items = (items + frame_items(frame)).min(MOST_ITEMS + 1);
    }
    items
}

/// Whether a thread has too many items.
fn is_deep(state: &State) -> bool
    ensures { result ≡ nat_lt most_items (items_of state.now) }
{
    match state {
        State::Running(frame, below) => MOST_ITEMS < more_items(frame_items(frame), below),
        _ => false,
    }
}

/// A thread that is still running when it has taken as many steps as the setting fails.
fn fueled(fuel: u64, steps: u64, state: State) -> State
    ensures { result ≡ fueled fuel steps state }
{
    match state {
        State::Running(frame, below) => {
            if steps < fuel {
                State::Running(frame, below)
            } else {
                State::Failing(End::Fuel)
            }
        }
        state => state,
    }
}

/// Whether the item stops its thread once an end is recorded.
fn heeds(item: &Work) -> bool
    ensures { result ≡ heeds item.now }
{
    match item {
        Work::Print(_) | Work::New(_) | Work::Loop(_, _) | Work::Join(_) | Work::Leave => true,
        Work::Enter {
            func: _,
            merged: _,
            count: _,
        } => true,
        Work::Begin {
            name: _,
            func: _,
            merged: _,
            count: _,
        } => true,
        _ => false,
    }
}

impl Config {
    /// The row of a print.
    fn print(
        &self,
        count: u64,
        mut frame: Frame,
        below: Stack<Frame>,
    ) -> Result<Outcome, AllocError>
        ensures { IfOk result (λ o. o ≡ print_args self.now.settings.print self.now.lines (take_args count frame.values []) frame below) }
    {
        let Some(line) = take_args(&mut frame.values, count)? else {
            return Ok(Outcome::NoRow);
        };
        let room = self.settings.print as u64;
        if self.words <= room && (line.len() as u64) < room - self.words {
            Ok(Outcome::Moves(Change::Says(line), State::Running(frame, below)))
        } else {
            Ok(fails(End::PrintFull))
        }
    }

    /// The row of an item of control or of a name.
    fn act(
        &self,
        alloc: Global,
        script: &CastScript,
        item: Work,
        frame: Frame,
        below: Stack<Frame>,
    ) -> Result<Outcome, AllocError>
        ensures { IfOk result (λ o. o ≡ act script.now self.now item frame below) }
    {
        match item {
            Work::Block(body, at) => block(body, at, frame, below),
            Work::Stmt(body, at) => statement_row(alloc, body, at, frame, below),
            Work::Store(name) => Ok(store(name, frame, below)),
            Work::Forget => Ok(forget(frame, below)),
            Work::Branch(branches, last, at) => branch(branches, last, at, frame, below),
            Work::Loop(condition, body) => begin_turn(condition, body, frame, below),
            Work::Turn(condition, body) => turn(condition, body, frame, below),
            Work::Eval(e) => eval(alloc, script, e.get(), frame, below),
            Work::Short(decides, second) => short(decides, second, frame, below),
            Work::Neg(arithmetic) => neg(arithmetic, frame, below),
            Work::Not => not(frame, below),
            Work::Binary(op, operator, arithmetic) => {
                binary(op, operator, arithmetic, frame, below)
            }
            Work::Read(member, field) => read(&self.heap, member, field, frame, below),
            Work::New(class) => new_object(
                alloc,
                script,
                self.settings.heap,
                &self.heap,
                class,
                frame,
                below,
            ),
            Work::Call(site, sites) => call(None, site, sites.as_slice(), frame, below),
            Work::Start(name, site, sites) => {
                call(Some(name), site, sites.as_slice(), frame, below)
            }
            Work::Arg { site, to, at } => fit_at(alloc, script, site, to, at, frame, below),
            Work::Cast(site) => cast(alloc, script, site, frame, below),
            Work::Result(site) => fit_result(alloc, script, site, frame, below),
            Work::Fitted {
                site: _,
                to: _,
                at: _,
            } => Ok(goes(frame, below)),
            Work::Enter {
                func,
                merged,
                count,
            } => enter(alloc, script, func, merged.get(), count, frame, below),
            Work::Begin {
                name,
                func,
                merged,
                count,
            } => begin(
                alloc,
                script,
                self.threads.len(),
                name,
                func,
                merged.get(),
                count,
                frame,
                below,
            ),
            Work::Fall(site) => fall(site, frame, below),
            Work::Join(thread) => join(self.threads.as_slice(), thread, frame, below),
            Work::Leave => leave(self.threads.as_slice(), frame, below),
            Work::Obligation {
                class,
                object,
                field,
                to,
                ready,
            } => {
                let demand = Demand {
                    class,
                    object,
                    field,
                    to,
                    ready,
                };
                obligation(alloc, script, &self.heap, demand, frame, below)
            }
            Work::Write {
                member,
                write: site,
                is,
                field,
                fitted,
            } => {
                let item = Writing {
                    member,
                    write: site,
                    is,
                    field,
                    fitted,
                };
                write(alloc, script, &self.heap, item, frame, below)
            }
            Work::Print(count) => self.print(count, frame, below),
        }
    }
}

/// The type that a site asks for.
fn target_of(script: &CastScript, site: u32) -> Result<Option<Shared<Ty>>, AllocError>
    ensures { IfOk result (λ t. t ≡ target_of script.now site) }
{
    match script.sites.get(site as usize) {
        None => Ok(None),
        Some(site) => match script.types.get(site.target.0 as usize) {
            None => Ok(None),
            Some(ty) => {
                let ty = ty.share()?;
                Ok(Some(ty))
            }
        },
    }
}

/// The row of a cast.
fn cast(
    alloc: Global,
    script: &CastScript,
    site: u32,
    frame: Frame,
    below: Stack<Frame>,
) -> Result<Outcome, AllocError>
    ensures { IfOk result (λ o. o ≡ fit_top script.now site (target_of script.now site) frame below) }
{
    let to = target_of(script, site)?;
    fit_top(alloc, script, site, to, frame, below)
}

/// The row of a result.
fn fit_result(
    alloc: Global,
    script: &CastScript,
    site: u32,
    frame: Frame,
    below: Stack<Frame>,
) -> Result<Outcome, AllocError>
    ensures { IfOk result (λ o. o ≡ fit_top script.now site frame.asked frame below) }
{
    let to = match &frame.asked {
        None => None,
        Some(asked) => Some(asked.share()?),
    };
    fit_top(alloc, script, site, to, frame, below)
}

impl Config {
    /// Thread t in another state after so many steps.
    #[tactic(auto, using(crate::proofs::FueledLists::fueled_lists))]
    fn placed(mut self, t: usize, asked: Option<Shared<Ty>>, state: State, steps: u64) -> Config
        requires within { t < length self.threads }
        requires fueled { IsFueled self.settings.fuel (record { asked = asked; state = state; steps = steps }) }
        ensures { result ≡ placed t (record { asked = asked; state = state; steps = steps }) state steps self }
    {
        self.threads.exchange(
            t,
            Thread {
                asked,
                state,
                steps,
            },
        );
        self
    }

    /// Records an end where none is recorded.
    fn recorded(mut self, end: End) -> Config
        ensures { result ≡ record self { end = first_end self.end end } }
    {
        if self.observation.end.is_none() {
            self.observation.end = Some(end);
        }
        self
    }

    /// What a step changes beside its own thread.
    #[tactic(auto, using(crate::proofs::FueledLists::fueled_lists))]
    fn changed(mut self, change: Change) -> Result<Config, AllocError>
        requires { IsBegun self.settings.fuel change }
        ensures { IfOk result (λ c. c ≡ changed change self) }
    {
        match change {
            Change::Same => Ok(self),
            Change::Sets { base, field, cell } => {
                self.heap.set(base, field.as_slice(), cell);
                Ok(self)
            }
            Change::Adds(object) => {
                self.heap.push(object)?;
                Ok(self)
            }
            Change::Says(line) => {
                let words = (line.len() as u64).saturating_add(1);
                self.observation.lines.push(line)?;
                self.words = self.words.saturating_add(words);
                Ok(self)
            }
            Change::Begins(thread) => {
                self.threads.push(thread)?;
                Ok(self)
            }
            Change::Ends(end) => Ok(self.recorded(end)),
        }
    }
}

impl Config {
    /// A step that is counted: it is taken, unless the thread would have too many items.
    fn counted(
        self,
        t: usize,
        asked: Option<Shared<Ty>>,
        steps: u64,
        change: Change,
        state: State,
    ) -> Result<Config, AllocError>
        requires within { t < length self.threads }
        requires fueled { steps < self.settings.fuel }
        requires begun { IsBegun self.settings.fuel change }
        ensures { IfOk result (λ c. c ≡ counted t (record { asked = asked; state = State.Stopped; steps = steps }) change state self) }
    {
        let steps = steps + 1;
        if is_deep(&state) {
            return Ok(self.placed(t, asked, State::Failing(End::DepthLimit), steps));
        }
        let state = fueled(self.settings.fuel, steps, state);
        let changed = self.changed(change)?;
        Ok(changed.placed(t, asked, state, steps))
    }

    /// What the row of thread t makes of the configuration without it.
    #[tactic(auto, using(crate::proofs::FueledLists::begun))]
    fn moved(
        self,
        t: usize,
        asked: Option<Shared<Ty>>,
        steps: u64,
        outcome: Outcome,
    ) -> Result<Option<Config>, AllocError>
        requires within { t < length self.threads }
        requires fueled { steps < self.settings.fuel }
        requires fresh { IsFresh outcome }
        ensures { IfOk result (λ o. o ≡ moved t (record { asked = asked; state = State.Stopped; steps = steps }) outcome self) }
    {
        match outcome {
            Outcome::NoRow | Outcome::Waits => Ok(None),
            Outcome::Moves(change, state) => {
                let c = self.counted(t, asked, steps, change, state)?;
                Ok(Some(c))
            }
        }
    }

    /// The step of a running thread, which was taken out.
    #[tactic(auto, using(crate::proofs::Fresh::fresh))]
    fn top_step(
        self,
        alloc: Global,
        script: &CastScript,
        t: usize,
        asked: Option<Shared<Ty>>,
        steps: u64,
        mut frame: Frame,
        below: Stack<Frame>,
    ) -> Result<Option<Config>, AllocError>
        requires within { t < length self.threads }
        requires fueled { steps < self.settings.fuel }
        ensures { IfOk result (λ o. o ≡ top_step script.now t (record { asked = asked; state = State.Stopped; steps = steps }) frame.work frame below self) }
    {
        let Some(item) = frame.work.pop() else {
            return Ok(None);
        };
        if self.observation.end.is_some() && heeds(&item) {
            return Ok(Some(self.placed(t, asked, State::Stopped, steps)));
        }
        let outcome = self.act(alloc, script, item, frame, below)?;
        self.moved(t, asked, steps, outcome)
    }

    /// Takes a thread out; a thread that is over stands in its place.
    #[tactic(auto, using(crate::proofs::FueledLists::fueled_lists))]
    fn taken(mut self, t: usize) -> (Thread, Config)
        requires { t < length self.threads }
        ensures there { slice_get self.threads t ≡ Some result.0 }
        ensures without { result.1 ≡ record self { threads = slice_set self.threads t taken_out } }
    {
        let out = Thread {
            asked: None,
            state: State::Stopped,
            steps: 0,
        };
        let thread = self.threads.exchange(t, out);
        (thread, self)
    }

    /// The step of a thread that was taken out.
    #[tactic(auto, using(crate::proofs::FueledLists::stepping))]
    fn thread_stepped(
        self,
        alloc: Global,
        script: &CastScript,
        t: usize,
        thread: Thread,
    ) -> Result<Option<Config>, AllocError>
        requires within { t < length self.threads }
        requires fueled { IsFueled self.settings.fuel thread }
        ensures { IfOk result (λ o. o ≡ thread_step script.now t thread thread.state self) }
    {
        let Thread {
            asked,
            state,
            steps,
        } = thread;
        match state {
            State::Running(frame, below) => {
                self.top_step(alloc, script, t, asked, steps, frame, below)
            }
            State::Failing(end) => {
                let ended = self.recorded(end);
                Ok(Some(ended.placed(t, asked, State::Stopped, steps)))
            }
            State::Finished(_) => Ok(None),
            State::Stopped => Ok(None),
        }
    }

    /// The configuration after the step of a thread, where it has one.
    #[tactic(auto, using(crate::proofs::FueledLists::fueled_lists, crate::proofs::FueledLists::stepping))]
    pub(crate) fn stepped(
        self,
        alloc: Global,
        script: &CastScript,
        t: usize,
    ) -> Result<Option<Config>, AllocError>
        ensures { IfOk result (λ o. o ≡ step_of script.now self t) }
    {
        if t >= self.threads.len() {
            return Ok(None);
        }
        let (thread, without) = self.taken(t);
        without.thread_stepped(alloc, script, t, thread)
    }
}

impl Config {
    /// Whether a thread in this state has a step.
    fn state_runs(&self, state: &State) -> bool
        ensures { result ≡ state_runs self.now state.now }
    {
        match state {
            State::Running(frame, _) => match frame.work.peek(0) {
                None => false,
                Some(item) => { (self.has_end() && heeds(item)) || !self.waits(item, frame) }
            },
            State::Failing(_) => true,
            State::Finished(_) | State::Stopped => false,
        }
    }

    /// Whether an item waits for a thread that isn't finished.
    fn waits(&self, item: &Work, frame: &Frame) -> bool
        ensures { result ≡ waits self.now.threads item.now frame.now }
    {
        match item {
            Work::Join(thread) => finished(self.threads.as_slice(), *thread).is_none(),
            Work::Leave => !all_finished(self.threads.as_slice(), frame.started.as_slice()),
            _ => false,
        }
    }

    /// How many threads have a step.
    pub(crate) fn able_count(&self) -> u64
        ensures { result ≡ length (able_threads self.now) }
    {
        let mut count = 0;
        for thread in self.threads.as_slice() {
            if self.state_runs(&thread.state) {
                count += 1;
            }
        }
        count
    }

    /// The thread at a place of those that have a step, in number order.
    pub(crate) fn able_at(&self, place: u64) -> Option<usize>
        ensures { result ≡ slice_get (able_threads self.now) place }
    {
        let mut left = place;
        for (t, thread) in self.threads.as_slice().iter().enumerate() {
            if self.state_runs(&thread.state) {
                if left == 0 {
                    return Some(t);
                }
                left -= 1;
            }
        }
        None
    }

    /// The same configuration.
    pub(crate) fn copied(&self, alloc: Global) -> Result<Config, AllocError>
        ensures { IfOk result (λ copy. copy ≡ self.now) }
    {
        let heap = self.heap.copied(alloc)?;
        let lines = copy_lines(alloc, self.observation.lines.as_slice())?;
        let threads = copy_threads(alloc, self.threads.as_slice())?;
        Ok(Config {
            settings: self.settings,
            heap,
            observation: Observation {
                lines,
                end: self.observation.end,
            },
            words: self.words,
            threads,
        })
    }

    /// Whether a thread has a step.
    pub(crate) fn can_step(&self, thread: u32) -> bool
        ensures { result ≡ can_step self.now thread }
    {
        match self.threads.as_slice().get(thread as usize) {
            None => false,
            Some(thread) => self.state_runs(&thread.state),
        }
    }

    /// Whether an end is recorded.
    pub(crate) fn has_end(&self) -> bool
        ensures { result ≡ is_some self.now.end }
    {
        self.observation.end.is_some()
    }

    /// The steps that each thread may take.
    pub(crate) fn fuel(&self) -> u64
        ensures value { result ≡ self.now.settings.fuel }
        ensures most { result ≤ 2 ^ 40 }
    {
        self.settings.fuel
    }

    /// The start of a run of a script: the main thread before its first statement, with no object and no line.
    pub fn new(alloc: Global, script: &CastScript, settings: Settings) -> Result<Config, AllocError>
        requires some { 1 ≤ settings.fuel }
        requires most { settings.fuel ≤ 2 ^ 40 }
        ensures { IfOk result (λ c. c ≡ start_of script.now settings) }
    {
        let mut work = Stack::new(alloc);
        work.push(Work::Leave)?;
        let body = script.main.body.share()?;
        work.push(Work::Block(body, 0))?;
        let frame = Frame {
            names: unbound(alloc, script.main.names.as_slice())?,
            handles: unbound(alloc, script.main.threads.as_slice())?,
            started: Items::new(alloc),
            asked: None,
            work,
            values: Stack::new(alloc),
        };
        let mut threads = Slots::new(alloc);
        threads.push(Thread {
            asked: None,
            state: State::Running(frame, Stack::new(alloc)),
            steps: 0,
        })?;
        Ok(Config {
            settings,
            heap: Heap::new(alloc),
            observation: Observation {
                lines: Items::new(alloc),
                end: None,
            },
            words: 0,
            threads,
        })
    }

    /// The printed lines, and the end once it is recorded.
    pub fn observation(&self) -> &Observation
        ensures { result.now ≡ observed self.now }
    {
        &self.observation
    }

    /// The cell of a field of the object at an address, where there is one: its recorded type and its value. An address
    /// is the number of cells of the objects before.
    pub fn cell(&self, base: u32, field: &[u8]) -> Option<&Cell>
        ensures { option_copied result ≡ cell_at self.now.heap base field.now }
    {
        self.heap.cell(base, field)
    }
}

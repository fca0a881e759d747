ghost use Rattle.std.specs.Prelude.{◌≡◌, ◌+◌, ◌<◌, ◌≤◌, length, IfOk};
ghost use Rattle.am_base.specs.Most.{most_events_of_run};
ghost use Rattle.am_shared_journal_defs.specs.Choices.{draw, after_draw};
ghost use Rattle.am_generator.specs.Counts.{seen_after};
ghost use Rattle.am_generator.specs.Generating.{most_drawn, turn_of, counting};

use crate::course::{Course, is_sent};
use crate::generate::founding;
use am_base::NoMemory;
use am_base::body::SentBody;
use am_base::name::Name;
use am_group::event::{Act, Event};
use am_shared_journal_defs::choice::Choice;
use am_shared_journal_defs::progress::Progress;
use am_turn_chooser::chooser::Chooser;
use am_world::world::WorldRefusal;
use rand_pcg::Lcg64Xsh32;
use rand_pcg::rand_core::utils::NextWord;
use std::alloc::Global;

/// The most bytes of a body that is drawn.
const MOST_DRAWN: usize = 512;

/// What a place does at its turn.
#[derive(Clone, Copy, PartialEq, Eq, Debug)]
pub enum DrawnTurn {
    /// It sends a body of a drawn size.
    Send,
    /// It asks what came of its next send.
    Done,
    /// It takes the next accepted entry.
    Take,
    /// Time passes.
    Tick,
    /// What the chooser says.
    Choose,
}

/// What a number below 16 asks for.
fn turn_of(number: u32) -> DrawnTurn
    ensures { result ≡ turn_of number }
{
    match number {
        0..=1 => DrawnTurn::Send,
        2 => DrawnTurn::Done,
        3..=5 => DrawnTurn::Take,
        6 => DrawnTurn::Tick,
        _ => DrawnTurn::Choose,
    }
}

/// The next word modulo a number.
fn draw(words: &mut Lcg64Xsh32, bound: u32) -> u32
    requires { 0 < bound }
    ensures value { result ≡ draw words.old bound }
    ensures drawn { words.new ≡ after_draw words.old }
{
    words.next_word() % bound
}

/// A body whose bytes count on from a number.
fn counting(alloc: Global, number: usize, size: usize) -> Result<SentBody, NoMemory>
    requires number { number ≤ most_events_of_run + 1 }
    requires size { size ≤ most_drawn }
    ensures { IfOk result (λ body. body ≡ counting number size) }
{
    let mut bytes = [0; MOST_DRAWN];
    let mut next = (number % 256) as u8;
    for index in 0..size {
        bytes[index] = next;
        next = next.wrapping_add(1);
    }
    Ok(SentBody::of_bytes(alloc, &bytes[..size])?)
}

/// Up to which number a place has looked through the letters after a choice, where there are so many.
fn seen_after(choice: Choice, seen: u32, many: u32) -> u32
    ensures { result ≡ seen_after choice seen many }
{
    match choice {
        Choice::Tick => many,
        Choice::Lose(number) | Choice::Hear(number) => number,
        Choice::Repeat(_) => seen,
    }
}

/// A run that goes on by the words of a seed. Beside that it keeps how often each place was told that a send of its own
/// stands in the list, and up to which letter it was looked whether one is for it. Contracts say which run it is on.
#[derive(Drop)]
pub struct Generator {
    alloc: Global,
    course: Course,
    words: Lcg64Xsh32,
    chooser: Chooser,
    progress: [Progress; 4],
    sent: [u32; 4],
    seen: [u32; 4],
}

impl Generator {
    ghost use Rattle.std.specs.Prelude.{OnOk, IfErr};
    ghost use Rattle.am_group.specs.Addressed.{next_for};
    ghost use Rattle.am_world.specs.Runs.{play_after, replay};
    ghost use Rattle.am_generator.specs.Courses.{IsCalmAct, IsCourse, events_done};
    ghost use Rattle.am_generator.specs.Generating.{GeneratedRun, first_drive, progress_at, sent_by, drive_once};
    ghost use Rattle.am_generator.specs.Counts.{IsDriven, Turned, Drew};
    ghost use Rattle.am_world.specs.declared.world.WorldRefusal.TheVariants as refusals;

    /// The run of a seed, to which nothing has happened.
    pub fn new(alloc: Global, seed: u64) -> Result<Generator, NoMemory>
        ensures { IfOk result (IsDriven (first_drive seed)) }
    {
        let course = Course::new(alloc, &founding())?;
        Ok(Generator {
            alloc,
            course,
            words: Lcg64Xsh32::new(seed, 1000),
            chooser: Chooser::new(seed, 1001, 10, 5),
            progress: [Progress::new(); 4],
            sent: [0; 4],
            seen: [0; 4],
        })
    }

    /// How often a place was told that a send of its own stands in the list.
    fn sent_by(&self, place: u8) -> u32
        requires place { place < 4 }
        requires driven { (d : GeneratedRun) × IsDriven d self.now }
        ensures value { (d : GeneratedRun) → IsDriven d self.now → result ≡ sent_by (replay d.play) place }
        ensures few { result ≤ most_events_of_run }
    {
        self.sent[usize::from(place)]
    }

    /// The least letter above a place's cursor that is for it. It is looked for above what was looked through.
    fn ahead(&self, place: u8) -> Option<u32>
        requires place { place < 4 }
        requires driven { (d : GeneratedRun) × IsDriven d self.now }
        ensures { (d : GeneratedRun) → IsDriven d self.now → result
            ≡ next_for (replay d.play).letters place (progress_at d place).cursor }
    {
        let seen = self.seen[usize::from(place)];
        self.course.next_for(Name::of_byte(place), seen)
    }

    /// What the chooser says for a place.
    fn choose(&mut self, place: u8) -> Act
        requires place { place < 4 }
        requires driven { (d : GeneratedRun) × IsDriven d self.old }
        ensures { (d : GeneratedRun) → IsDriven d self.old
            → Turned d place DrawnTurn.Choose self.new result }
    {
        let at = usize::from(place);
        let progress = self.progress[at];
        let ahead = self.ahead(place);
        let many = self.course.packets() as u32;
        let choice = self.chooser.choose(ahead, progress.last);
        self.progress[at] = progress.after(choice);
        self.seen[at] = seen_after(choice, self.seen[at], many);
        choice.act()
    }

    /// A place sends a body of a drawn size.
    fn send(&mut self, place: u8) -> Result<Act, NoMemory>
        requires driven { (d : GeneratedRun) × IsDriven d self.old }
        ensures { (d : GeneratedRun) → IsDriven d self.old
            → IfOk result (Turned d place DrawnTurn.Send self.new) }
    {
        let number = self.course.counts().events as usize + 1;
        let size = draw(&mut self.words, MOST_DRAWN as u32 + 1) as usize;
        Ok(Act::Send(counting(self.alloc, number, size)?))
    }

    /// What a place does at its turn, where all is drawn that is to be drawn for it.
    fn act(&mut self, place: u8, turn: DrawnTurn) -> Result<Act, NoMemory>
        requires place { place < 4 }
        requires driven { (d : GeneratedRun) × IsDriven d self.old }
        ensures { (d : GeneratedRun) → IsDriven d self.old → IfOk result (Turned d place turn self.new) }
    {
        match turn {
            DrawnTurn::Send => self.send(place),
            DrawnTurn::Done => Ok(Act::Done(self.sent_by(place) + 1)),
            DrawnTurn::Take => Ok(Act::Take),
            DrawnTurn::Tick => Ok(Act::Tick),
            DrawnTurn::Choose => Ok(self.choose(place)),
        }
    }

    /// Draws the next event, which is then to happen. It is an error where there is no memory for it; then words may have been drawn,
    /// so that nothing more is to be done.
    pub fn draw_event(&mut self) -> Result<Event, NoMemory>
        requires driven { (d : GeneratedRun) × IsDriven d self.old }
        ensures { (d : GeneratedRun) → IsDriven d self.old → IfOk result (Drew d self.new) }
    {
        let place = draw(&mut self.words, 4) as u8;
        let turn = turn_of(draw(&mut self.words, 16));
        let act = self.act(place, turn)?;
        Ok(Event::at(place, act))
    }

    /// An event happens. NoMemory where there is no memory for it, and Spent only where 100,000 events were done.
    pub fn happen(&mut self, event: Event) -> Result<(), WorldRefusal>
        requires place { event.node < 4 }
        requires calm { IsCalmAct event.act }
        requires driven { (d : GeneratedRun) × IsDriven d self.old }
        ensures ok { (d : GeneratedRun) → IsDriven d self.old
            → OnOk result (IsDriven (record d { play = play_after d.play event }) self.new) }
        ensures spent { (d : GeneratedRun) → IsDriven d self.old → IfErr result (λ refusal. refusal
            ≡ refusals.Spent → length d.play.events ≡ most_events_of_run) }
    {
        let place = event.node.get();
        let sent = self.sent_by(place);
        let outcome = self.course.step(event)?;
        self.sent[usize::from(place)] = sent + u32::from(is_sent(&outcome));
        Ok(())
    }

    /// The course, after all that was done.
    pub fn into_course(self) -> Course
        ensures { (d : GeneratedRun) → IsDriven d self → IsCourse d.play result }
    {
        self.course
    }
}

//! The book of an account, which takes its calls.

ghost use Rattle.std.specs.Prelude.{◌≡◌, ◌+◌, ◌*◌, ◌<◌, ◌≤◌, ◌^◌, ◌↔◌, ℕ, [], length, reverse, All, IfOk, IfErr, Err};
ghost use Rattle.std.specs.Prelude.{Some, None, true, false, is_some, slice_get, slice_index_or, option_map};
ghost use Rattle.std.specs.Prelude.{MatchOption};
ghost use Rattle.std.specs.Arc.{arc_value};
ghost use Rattle.arn_ids.specs.Environments.{owners};
ghost use Rattle.arn_ids.specs.Faults.{first_fault};
ghost use Rattle.arn_ids.specs.Limits.{most_environments, most_extensions};
ghost use Rattle.call_types.specs.declared.call.Call.TheVariants.{Stop};
ghost use Rattle.call_types.specs.declared.call.Entry.{Entry};
ghost use Rattle.call_model.specs.Counts.{full, stats};
ghost use Rattle.call_model.specs.History.{answer_of, stopped};
ghost use Rattle.call_model.specs.Limits.{reservation};
ghost use Rattle.call_model.specs.Next.{IsLegal, added, next, due, moment_at, first};
ghost use Rattle.call_types.specs.Calls.{body_of};
ghost use Rattle.script.specs.AnswerText.{entry_text};
ghost use Rattle.call_types.specs.Within.{IsWithin};
ghost use Rattle.env_phase.specs.Meeting.{known_at};
ghost use Rattle.account_book.specs.Answering.{answers_in, most_answers, most_of_one};
ghost use Rattle.account_book.specs.Books.{life};
ghost use Rattle.account_book.specs.HistoryText.{opening_text};
ghost use Rattle.account_book.specs.Premature.{premature};
ghost use Rattle.account_book.specs.Reached.{IsBooked, IsReached};
ghost use Rattle.account_book.specs.ReplyText.{reply_text};
ghost use Rattle.account_book.specs.Room.{wanted};
ghost use Rattle.account_book.specs.declared.book.OpenFault.TheVariants.{EntriesOutOfRange, OutOfMemory as NoMemory};
ghost use Rattle.account_book.specs.declared.book.Refusal.TheVariants.{JournalFull, OutOfMemory};

use crate::history_text::opening_text;
use crate::journal::Journal;
use crate::ranges::config_fits;
use crate::rendering::render;
use crate::room::Roomy;
use arn_ids::{Checked, EnvNo, FnNo, MOST_EXTENSIONS};
use call_model::{Answer, Call, Entry, Past, Stats, Ticket};
use entry_blocks::Blocks;
use env_phase::Environment;
use lambda_wire::Reply;
use script::{Draft, draft_entry};
use std::alloc::{AllocError, Global};
use std::marker::Model;
use std::sync::Arc;
use thiserror::Error;

/// Why a book could not be opened: the first variant that applies.
#[derive(Clone, Copy, Debug, PartialEq, Eq, Error)]
pub enum OpenFault {
    /// The maximum number of entries is not above the number of environments, or is above 2^32.
    #[error("EntriesOutOfRange")]
    EntriesOutOfRange,
    /// An allocation failed.
    #[error("out of memory")]
    OutOfMemory,
}

impl From<AllocError> for OpenFault {
    ghost from_gives = { λ _ e. e ≡ NoMemory };

    fn from(_e: AllocError) -> OpenFault {
        OpenFault::OutOfMemory
    }
}

/// Why a call was not taken: the first variant that applies. The book is unchanged.
#[derive(Clone, Copy, Debug, PartialEq, Eq, Error)]
pub enum Refusal {
    /// The journal has no room for what the call may add.
    #[error("JournalFull")]
    JournalFull,
    /// An allocation failed.
    #[error("out of memory")]
    OutOfMemory,
}

impl From<AllocError> for Refusal {
    ghost from_gives = { λ _ e. e ≡ OutOfMemory };

    fn from(_e: AllocError) -> Refusal {
        Refusal::OutOfMemory
    }
}

/// How far the shutdown of a service has come.
#[derive(Clone, Copy, Debug, PartialEq, Eq)]
pub enum Life {
    /// There was no Stop.
    Open,
    /// There was a Stop, and some environment is not shut down yet.
    Stopping,
    /// There was a Stop, and every environment is shut down.
    Off,
}

/// The journal of one account. Its history is legal: moments never go back, what is due expires before
/// any other call is taken, and the answers and the place of each entry are those that the entries
/// before it, its moment and its call determine.
#[derive(Drop)]
pub struct Book {
    journal: Journal,
    salt: u64,
    max_entries: u64,
    /// Where the answers that a call gives are gathered, before they are copied to its entry.
    answers: Roomy<(Ticket, Answer)>,
    alloc: Global,
}

impl Model for Book {
    ghost use Rattle.account_book.specs.Book.{Kept};
    ghost use Rattle.account_book.specs.Books.{kept, IsBook};

    ghost Value = { Kept };

    ghost view = { kept };

    ghost invariant = { IsBook };
}

/// Makes a list for each of `entries` entries, with room for `answers` answers.
fn make_rooms(
    alloc: Global,
    entries: usize,
    answers: usize,
) -> Result<Vec<Roomy<(Ticket, Answer)>>, AllocError>
    ensures as_many { IfOk result (λ rooms. length rooms.items ≡ entries) }
    ensures enough { IfOk result (λ rooms. All (λ room. room ≡ ([], answers)) rooms.items) }
{
    let mut rooms = Vec::with_capacity(alloc, entries)?;
    for _entry in 0..entries {
        rooms.push(Roomy::with_room(alloc, answers)?)?;
    }
    Ok(rooms)
}

/// The most answers that an environment with this many extensions gives to a call.
fn most_of_one(extensions: usize) -> usize
    requires { extensions ≤ most_extensions }
    ensures { result ≡ most_of_one extensions }
{
    extensions + 3
}

/// How many answers a call needs room for.
fn answers_wanted(widest: usize, environments: u64, call: &Call) -> usize
    requires few { environments ≤ most_environments }
    requires ten { widest ≤ most_extensions }
    ensures { result ≡ most_answers widest environments call.now }
{
    if matches!(call, Call::Stop) {
        most_of_one(MOST_EXTENSIONS) * environments as usize + 1
    } else {
        most_of_one(widest) + 1
    }
}

/// Makes room for a call, and for the expiries before it: in the journal for their entries, in
/// `answers` for the answers that the call gives, and in a list for those of each expiry. If it fails,
/// the history is unchanged.
fn room_for(
    alloc: Global,
    journal: &mut Journal,
    answers: &mut Roomy<(Ticket, Answer)>,
    expiries: usize,
    call: &Call,
) -> Result<Vec<Roomy<(Ticket, Answer)>>, AllocError>
    requires { length journal.old.history + (expiries + 1) ≤ 2 ^ 32 }
    ensures same { (journal.new.config ≡ journal.old.config) × (journal.new.history ≡ journal.old.history)
        × (journal.new.widest ≡ journal.old.widest) }
    ensures made { IfOk result (λ rooms. journal.new.room ≡ expiries + 1) }
    ensures as_many { IfOk result (λ rooms. length rooms.items ≡ expiries) }
    ensures enough { IfOk result (λ rooms. All (λ room. room ≡ ([], most_of_one journal.old.widest + 1)) rooms.items) }
    ensures own { IfOk result
        (λ rooms. answers.new ≡ ([], most_answers journal.old.widest (length (owners journal.old.config)) call.now)) }
{
    journal.make_room(expiries + 1)?;
    let widest = journal.widest();
    answers.empty(answers_wanted(widest, journal.environments(), call))?;
    make_rooms(alloc, expiries, most_of_one(widest) + 1)
}

/// Bytes are numbers below 256.
fn bytes_fit(bytes: &[u8])
    ensures { All (λ b. b < 256) bytes.now }
{}

/// So are those of a call's payload, output or report.
fn body_fits(call: &Call)
    ensures { All (λ b. b < 256) (body_of call.now) }
{
    if let Some(body) = call.body() {
        bytes_fit(body.as_slice());
    }
}

/// How many entries a call needs room for.
fn room_wanted(environments: u64, call: &Call) -> u64
    requires { environments ≤ most_environments }
    ensures value { result ≡ wanted environments call.now }
    ensures few { result ≤ 2 * (most_environments + 1) }
{
    if matches!(call, Call::Stop) {
        environments + 1
    } else {
        2 * (environments + 1)
    }
}

impl Book {
    /// Opens an empty book that takes up to `max_entries` entries: at least one more than there are
    /// environments, at most 2^32. The configuration is shared, not copied.
    pub fn open(
        alloc: Global,
        config: Arc<Checked>,
        salt: u64,
        max_entries: u64,
    ) -> Result<Book, OpenFault>
        ensures range { (result ≡ Err EntriesOutOfRange) ↔ ((length (owners (arc_value config)) + 1 ≤ max_entries)
            × (max_entries ≤ 2 ^ 32) → ⊥) }
        ensures opened { IfOk result (λ book. book
            ≡ record { config = arc_value config; salt = salt; max_entries = max_entries; history = [] }) }
    {
        if max_entries <= u64::from(config.environments()) || max_entries > 1 << 32 {
            return Err(OpenFault::EntriesOutOfRange);
        }
        config_fits(&config);
        Ok(Book {
            journal: Journal::open(alloc, config)?,
            salt,
            max_entries,
            answers: Roomy::new(alloc),
            alloc,
        })
    }

    /// Takes a call at a moment in milliseconds, below 2^53. A moment before the last one counts as the
    /// last one. First each environment whose deadline has come expires, in the order of deadlines and
    /// numbers, with an entry of its own; then the call is taken. Returns the call's ticket.
    pub fn apply(&mut self, now: u64, call: Call) -> Result<Ticket, Refusal>
        requires moment { now < 2 ^ 53 }
        requires within { IsWithin self.old.config call }
        ensures full { (result ≡ Err JournalFull)
            ↔ (full self.old.config self.old.max_entries self.old.history call ≡ true) }
        ensures step { IfOk result
            (λ ticket. self.new ≡ record self.old { history = next self.old.config self.old.history now call }) }
        ensures ticket { IfOk result (λ ticket. ticket + 1 ≡ length self.new.history) }
        ensures refused { IfErr result (λ refusal. self.new ≡ self.old) }
    {
        if self.full(&call) {
            return Err(Refusal::JournalFull);
        }
        let expiries = self.count_due(now);
        Ok(self.take(now, call, expiries)?)
    }

    /// Takes a call as `apply` does, for a caller that has already asked whether the journal is `full`
    /// for the call, and how many environments are due before it (`count_due`).
    ///
    /// It fails only if an allocation fails, and the book is then unchanged.
    pub fn take(&mut self, now: u64, call: Call, expiries: usize) -> Result<Ticket, AllocError>
        requires moment { now < 2 ^ 53 }
        requires within { IsWithin self.old.config call }
        requires free { full self.old.config self.old.max_entries self.old.history call ≡ false }
        requires expiries { expiries ≡ length (due self.old.config self.old.history (moment_at self.old.history now)) }
        ensures step { IfOk result
            (λ ticket. self.new ≡ record self.old { history = next self.old.config self.old.history now call }) }
        ensures ticket { IfOk result (λ ticket. ticket + 1 ≡ length self.new.history) }
        ensures refused { IfErr result (λ refusal. self.new ≡ self.old) }
    {
        self.journal.facts();
        body_fits(&call);
        let moment = now.max(self.journal.last_moment());
        let rooms = room_for(
            self.alloc,
            &mut self.journal,
            &mut self.answers,
            expiries,
            &call,
        )?;
        self.journal.expire_due(moment, rooms);
        self.journal.take(moment, call, &mut self.answers);
        Ok(self.journal.entries().len() as u64 - 1)
    }

    /// How many environments expire before a call that is handed in at a moment.
    pub fn count_due(&self, now: u64) -> usize
        ensures value { result ≡ length (due self.now.config self.now.history (moment_at self.now.history now)) }
        ensures few { result ≤ most_environments }
    {
        let last = self.journal.last_moment();
        self.journal.count_due(now.max(last))
    }

    /// The most answers that a call can give, its own entry and the expiries before it together.
    /// `expiries` is the number of environments that are due (`count_due`). A caller that notes answers
    /// makes room for this many: up to 14 for each environment that is due, and 14 for the call itself,
    /// or 13 for each environment and one more if it is a Stop.
    pub fn most_given(&self, expiries: usize, call: &Call) -> usize
        requires within { IsWithin self.now.config call.now }
        requires few_due { expiries ≤ most_environments }
        ensures enough { (now : ℕ)
            → expiries ≡ length (due self.now.config self.now.history (moment_at self.now.history now))
            → answers_in (added self.now.config self.now.history now call.now) ≤ result }
        ensures few { result
            ≤ (most_of_one most_extensions + 1) * expiries
            + most_answers most_extensions (length (owners self.now.config)) call.now }
    {
        self.journal.facts();
        let widest = self.journal.widest();
        let own = answers_wanted(widest, self.journal.environments(), call);
        expiries * (most_of_one(widest) + 1) + own
    }

    /// Whether the journal is full for a call. There must be room for the call and an expiry of every
    /// environment, and then for as much again, which is kept for a Stop.
    pub fn full(&self, call: &Call) -> bool
        ensures { result ≡ full self.now.config self.now.max_entries self.now.history call.now }
    {
        self.max_entries < self.len() + room_wanted(self.journal.environments(), call)
    }

    /// How many entries the history has, including expiries.
    pub fn len(&self) -> u64
        ensures value { result ≡ length self.now.history }
        ensures few { result ≤ 2 ^ 32 }
    {
        self.journal.entries().len() as u64
    }

    /// The entries, the oldest first.
    pub fn entries(&self) -> &Blocks<Entry>
        ensures { result.now.0 ≡ reverse self.now.history }
    {
        self.journal.entries()
    }

    /// The entry with a ticket, if the history has it.
    pub fn entry(&self, ticket: Ticket) -> Option<&Entry>
        ensures { option_map (λ entry. entry.now) result ≡ slice_get (reverse self.now.history) ticket }
    {
        self.journal.entries().get(ticket as usize)
    }

    /// The entries with all that is read of them: the configuration, the salt, and the count of each.
    pub fn past(&self) -> Past<'_>
        ensures config { result.config.now ≡ self.now.config }
        ensures salt { result.salt ≡ self.now.salt }
        ensures entries { result.entries.now.0 ≡ reverse self.now.history }
    {
        Past {
            config: self.journal.config(),
            salt: self.salt,
            entries: self.journal.entries(),
            counts: self.journal.counts(),
        }
    }

    /// The answer to a ticket, if it was answered.
    pub fn answer(&self, ticket: Ticket) -> Option<Answer>
        ensures { result ≡ answer_of self.now.history ticket }
    {
        self.journal.answer(ticket)
    }

    /// The counts of the account.
    pub fn stats(&self) -> Stats
        ensures { result ≡ stats self.now.config self.now.history }
    {
        self.journal.stats()
    }

    /// Whether an environment is due at a moment in milliseconds.
    pub fn due(&self, now: u64) -> bool
        ensures { result ≡ is_some (first (due self.now.config self.now.history now)) }
    {
        self.journal.first_due(now).is_some()
    }

    /// Whether a call is premature if it is handed in at a moment in milliseconds: it is an Invoke that
    /// would be throttled, or would start an environment, while an environment in its way has answered
    /// its invocation and is not ready again. No call is premature after a Stop, if the function's
    /// reservation is 0, or if an environment is due, whose expiry may clear the way.
    #[tactic(auto, unfolding(crate::specs::Premature::premature))]
    pub fn is_premature(&self, now: u64, call: &Call) -> bool
        requires within { IsWithin self.now.config call.now }
        ensures { result ≡ premature self.now.config self.now.history now call.now }
    {
        let Call::Invoke { function, .. } = call else {
            return false;
        };
        let last = self.journal.last_moment();
        self.journal.first_due(now.max(last)).is_none()
            && self.journal.would_be_premature(*function)
    }

    /// How far the shutdown of the service has come.
    pub fn life(&self) -> Life
        ensures { result ≡ life self.now.config self.now.history }
    {
        if !self.journal.is_stopped() {
            Life::Open
        } else if self.journal.is_off() {
            Life::Off
        } else {
            Life::Stopping
        }
    }

    /// A function's reservation in force, if it has one.
    /// (GetFunctionConcurrency)
    pub fn reservation(&self, function: FnNo) -> Option<u32>
        requires from_one { 1 ≤ function }
        requires there { function ≤ length self.now.config.functions }
        ensures { result ≡ reservation self.now.config self.now.history function }
    {
        self.journal.reservation(function)
    }

    /// The environment with a number: its phase, its extensions and its parked polls after the history.
    pub fn environment(&self, env: EnvNo) -> &Environment
        requires from_one { 1 ≤ env }
        requires there { env ≤ length (owners self.now.config) }
        ensures { result.now ≡ known_at self.now.config self.now.history env }
    {
        self.journal.environment(env)
    }

    /// The text of the history before its first entry: the line `form 2`, and the configuration's line.
    /// Followed by the texts of the entries, the oldest first, it is a script whose replay gives the
    /// history's own answers.
    pub fn opening(&self) -> Result<Vec<u8>, AllocError>
        ensures { IfOk result (λ text. text.items ≡ opening_text self.now.config self.now.salt self.now.max_entries) }
    {
        opening_text(
            self.alloc,
            self.journal.config(),
            self.salt,
            self.max_entries,
        )
    }

    /// The history text of the entry with a ticket, if the history has it: its call's line, and its answer
    /// lines after `# `. Bodies are not escaped yet; they are shared with the history, not copied.
    ///
    /// It fails only if an allocation fails.
    pub fn history(&self, ticket: Ticket) -> Result<Option<Draft>, AllocError>
        ensures { IfOk result (λ draft. MatchOption draft (length self.now.history ≤ ticket)
            (λ text. (ticket < length self.now.history) × ((d : Entry)
            → text ≡ entry_text self.now.config self.now.salt self.now.history ticket
            (slice_index_or (reverse self.now.history) ticket d)))) }
    {
        if ticket >= self.len() {
            return Ok(None);
        }
        Ok(Some(draft_entry(self.alloc, &self.past(), ticket as usize)?))
    }

    /// The reply to the client of the call with a ticket, if it was answered: status, headers and body.
    /// An invocation's body is shared with the reply, not copied.
    ///
    /// It fails only if an allocation fails.
    #[tactic(auto, unfolding(crate::specs::ReplyText::reply_text))]
    pub fn render(&self, ticket: Ticket) -> Result<Option<Reply>, AllocError>
        ensures text { IfOk result (λ reply. reply ≡ reply_text self.now.config self.now.salt self.now.history ticket) }
        ensures answered { IfOk result (λ reply. is_some reply ≡ is_some (answer_of self.now.history ticket)) }
    {
        let Some(answer) = self.answer(ticket) else {
            return Ok(None);
        };
        self.journal.facts();
        Ok(Some(render(self.alloc, &self.past(), ticket, answer)?))
    }

    /// The configuration.
    pub fn config(&self) -> &Checked
        ensures { result.now ≡ self.now.config }
    {
        self.journal.config()
    }

    /// The salt of the identifiers.
    pub fn salt(&self) -> u64
        ensures { result ≡ self.now.salt }
    {
        self.salt
    }

    /// What holds of every book: its history is one that calls led to, each of which the book takes, so
    /// it is legal; and there is always room for a first Stop.
    pub fn facts(&self)
        ensures sound { first_fault self.now.config ≡ None }
        ensures booked { IsBooked self.now.config self.now.salt self.now.max_entries }
        ensures reached { IsReached self.now.config self.now.max_entries self.now.history }
        ensures legal { IsLegal self.now.config self.now.history }
        ensures stop { stopped self.now.history ≡ false
            → full self.now.config self.now.max_entries self.now.history Stop ≡ false }
    {
        self.journal.facts();
        let _salt = self.salt;
    }
}

//! The table of phases: a row for each call. The cells of a row are, in this order, those of Starting, Idle, Busy whose
//! invocation is unanswered, Busy whose invocation is answered, Closing and Off.
//! (Runtime API; Extensions API; Lambda execution environment lifecycle)

ghost use Rattle.std.specs.Prelude.{◌≡◌, ◌<◌, ◌^◌, if◌then◌else◌, Some};
ghost use Rattle.call_model.specs.Stand.{is_number};
ghost use Rattle.call_model.specs.Table as spec;
ghost use Rattle.env_phase.specs.Cells.{at_any, at_ticket, extension_cell, report_cell};

use super::Environment;
use super::cells::{
    Cell, accepted, bad_id, fails, gets_error, gets_output, init_times_out, not_idle, nothing,
    only, parks, refused_container, refused_state, spins_down, stops, tells_stopped, times_out,
    too_large, unknown,
};
use arn_ids::Text;
use call_model::{Answer, Call, Phase, Rejection, Ticket};
use extension_set::RegisterFault;

impl Environment {
    /// Returns the cell of the table for a call with this ticket, in the present phase.
    #[tactic(auto, using(crate::proofs::Cells::of_row, crate::proofs::Cells::of_extension_row, crate::proofs::Cells::of_report_row))]
    pub(super) fn table(&self, ticket: Ticket, call: &Call) -> Cell
        requires { self.now.stand.registrations < 2 ^ 52 }
        ensures { result ≡ at_ticket ticket (spec.table self.now.stand call.now) }
    {
        match call {
            Call::RuntimeNext { .. } => self.row(
                parks(),
                parks(),
                refused_state(),
                parks(),
                refused_container(),
                refused_container(),
            ),
            Call::Response { id, .. } => self.report_row(*id, gets_output(ticket)),
            Call::ResponseTooLarge { id, .. } => self.report_row(*id, too_large()),
            Call::Failure { id, .. } => self.report_row(*id, gets_error(ticket)),
            Call::InitFailure { .. } => self.row(
                fails(ticket),
                refused_state(),
                refused_state(),
                refused_state(),
                refused_state(),
                refused_container(),
            ),
            Call::Register { name, .. } => self.row(
                self.registers(name),
                refused_state(),
                refused_state(),
                refused_state(),
                refused_state(),
                refused_container(),
            ),
            Call::ExtNext { ext, .. } => self.extension_row(
                *ext,
                parks(),
                parks(),
                parks(),
                parks(),
                self.told_once(*ext),
            ),
            Call::ExtInitFailure { ext, .. } => self.extension_row(
                *ext,
                fails(ticket),
                refused_state(),
                refused_state(),
                refused_state(),
                refused_state(),
            ),
            Call::ExtExitFailure { ext, .. } => self.extension_row(
                *ext,
                fails(ticket),
                fails(ticket),
                fails(ticket),
                fails(ticket),
                accepted(),
            ),
            Call::Spindown { .. } => self.row(
                not_idle(),
                spins_down(),
                not_idle(),
                not_idle(),
                not_idle(),
                not_idle(),
            ),
            Call::Expire { .. } => self.row(
                init_times_out(),
                nothing(),
                times_out(),
                times_out(),
                nothing(),
                nothing(),
            ),
            Call::Stop => {
                if self.stopped {
                    nothing()
                } else {
                    self.row(
                        stops(),
                        stops(),
                        stops(),
                        stops(),
                        tells_stopped(),
                        tells_stopped(),
                    )
                }
            }
            _ => nothing(),
        }
    }

    /// The cell of a row in the present phase.
    #[inline(always)]
    fn row(
        &self,
        starting: Cell,
        idle: Cell,
        unanswered: Cell,
        answered: Cell,
        closing: Cell,
        off: Cell,
    ) -> Cell
        ensures { result ≡ spec.row self.now.stand starting idle unanswered answered closing off }
    {
        match self.phase {
            Phase::Starting { .. } => starting,
            Phase::Idle => idle,
            Phase::Busy { .. } => {
                if self.request.is_some() {
                    unanswered
                } else {
                    answered
                }
            }
            Phase::Closing { .. } => closing,
            Phase::Off => off,
        }
    }

    /// The cell of a row for a call by an extension. An extension that is not registered in the present
    /// generation is unknown. In Off no extension is known, and the container refuses the call.
    #[inline(always)]
    fn extension_row(
        &self,
        ext: u64,
        starting: Cell,
        idle: Cell,
        unanswered: Cell,
        answered: Cell,
        closing: Cell,
    ) -> Cell
        ensures { result ≡ extension_cell self.now.stand ext starting idle unanswered answered closing }
    {
        if self.knows(ext) {
            self.row(
                starting,
                idle,
                unanswered,
                answered,
                closing,
                refused_container(),
            )
        } else {
            self.row(
                unknown(),
                unknown(),
                unknown(),
                unknown(),
                unknown(),
                refused_container(),
            )
        }
    }

    /// The cell of the row for a report on the invocation with this request count.
    /// (Runtime API: Invocation response, Invocation error)
    #[inline(always)]
    fn report_row(&self, id: u64, cell: Cell) -> Cell
        ensures { result ≡ report_cell self.now.stand id cell }
    {
        self.row(
            refused_state(),
            refused_state(),
            self.if_named(id, cell),
            refused_state(),
            refused_state(),
            refused_container(),
        )
    }

    /// The cell for a report on the unanswered invocation, by the request count that the report names.
    #[inline(always)]
    fn if_named(&self, id: u64, cell: Cell) -> Cell
        ensures { result ≡ (if is_number self.now.stand.request id then cell else at_any spec.bad_id) }
    {
        if self.request == Some(id) {
            cell
        } else {
            bad_id()
        }
    }

    /// The cell of a Register in Starting.
    fn registers(&self, name: &Text) -> Cell
        requires { self.now.stand.registrations < 2 ^ 52 }
        ensures { result ≡ at_any (spec.registers self.now.stand name.now) }
    {
        only(Some(self.register(name)))
    }

    /// The answer to a Register in Starting. (Extensions API: Register)
    fn register(&self, name: &Text) -> Answer
        requires { self.now.stand.registrations < 2 ^ 52 }
        ensures { result ≡ spec.register self.now.stand name.now }
    {
        match self.extensions.admits(name) {
            Ok(()) => Answer::Registered {
                count: self.registrations + 1,
            },
            Err(RegisterFault::NameInUse) => Answer::Refused(Rejection::NameInUse),
            Err(RegisterFault::TooMany) => Answer::Refused(Rejection::TooMany),
        }
    }

    /// The cell of an extension's Next in Closing.
    fn told_once(&self, ext: u64) -> Cell
        ensures { result ≡ at_any (spec.told_once self.now.stand ext) }
    {
        only(Some(self.told_in_closing(ext)))
    }

    /// The answer to an extension's Next in Closing: it is notified of the shutdown once.
    /// (Extensions API: Shutdown event)
    fn told_in_closing(&self, ext: u64) -> Answer
        ensures { Some result ≡ spec.told_in_closing self.now.stand ext }
    {
        match self.phase {
            Phase::Closing { reason, until, .. } if self.extensions.owes_end(ext) =>
                Answer::Ending {
                    reason,
                    until,
                    event: 0,
                },
            _ => Answer::Refused(Rejection::Container),
        }
    }
}

//! What a handler posts for a request.

ghost use Rattle.std.specs.Prelude.{◌≡◌, codes, Ok, Err, IfOk, IfErr};
ghost use Rattle.http_header.specs.HeaderMap.{get_all};
ghost use Rattle.handover.specs.Posted.{IsHeadOf, status_among, fields_in};
ghost use Rattle.handler_desk.specs.Asked.{asked};
ghost use Rattle.handler_desk.specs.declared.asked.Asked.TheVariants.{Response};

use crate::pipe::PipeReceiver;
use handover::{AnswerFault, AnswerHead, read_answer};
use http::request::Parts;
use std::alloc::Global;

/// What a handler posts for a request: the head of its post, the identifier in its path, the status and the fields of the
/// answer, and where its body is taken out while it comes.
#[derive(Drop)]
pub struct Posted {
    /// The head of the post.
    pub post: Parts,
    /// The identifier in its path.
    pub id: u64,
    /// The head of the answer, as the post's fields say it.
    pub head: AnswerHead,
    /// The body of the answer, which is that of the post.
    pub body: PipeReceiver,
    pub ghost named: { asked post ≡ Response id },
    pub ghost status_read: { status_among (get_all post.headers (codes "lambda-local-status")) ≡ Ok head.status },
    pub ghost fields_read: { fields_in (get_all post.headers (codes "lambda-local-header")) ≡ Ok head.fields.items },
}

impl Posted {
    /// Reads what is posted for the request with this identifier, which is the one in the path. Its body is taken out of
    /// this pipe.
    ///
    /// # Errors
    /// If the fields of the post say no head; or if memory is refused.
    pub fn read(
        alloc: Global,
        post: Parts,
        id: u64,
        body: PipeReceiver,
    ) -> Result<Posted, AnswerFault>
        requires { asked post ≡ Response id }
        ensures of_post { IfOk result (λ posted. (posted.post ≡ post) × (posted.id ≡ id) × (posted.body ≡ body)) }
        ensures fault { IfErr result (λ fault. IsHeadOf post.headers (Err fault)) }
    {
        match read_answer(alloc, &post.headers) {
            Ok(head) => Ok(Posted {
                post,
                id,
                head,
                body,
            }),
            Err(fault) => Err(fault),
        }
    }
}

/// What becomes of a request at its handler.
#[derive(Drop)]
pub enum Given {
    /// It has its answer.
    Posted(Posted),
    /// The handler says that it has failed.
    Failed,
}

//! The pieces of a text, as the frames of a body.

ghost use Rattle.std.specs.Prelude.{◌≡◌, IfOk};
ghost use Rattle.http_body.specs.Frame.{data_frame};
ghost use Rattle.long_poll.specs.Pieces.{IsPiece};

use bytes::Bytes;
use http_body::Frame;
use script::Draft;
use std::alloc::AllocError;

/// Makes a frame of bytes, without a copy.
pub(crate) fn frame_of(bytes: Vec<u8>) -> Result<Frame<Bytes>, AllocError>
    ensures { IfOk result (λ frame. frame ≡ data_frame bytes.items) }
{
    let bytes = Bytes::from_vec(bytes).map_err(AllocError::from)?;
    Ok(Frame::data(bytes))
}

/// Takes the first piece of a text. Returns it with what is left of the text, `None` if nothing is.
pub(crate) fn first_piece(mut text: Draft) -> Result<(Frame<Bytes>, Option<Draft>), AllocError>
    ensures { IfOk result (λ first. IsPiece text first.0 first.1) }
{
    let piece = text.take()?;
    if piece.is_empty() {
        return Ok((frame_of(piece)?, None));
    }
    if text.is_over() {
        return Ok((frame_of(piece)?, None));
    }
    Ok((frame_of(piece)?, Some(text)))
}

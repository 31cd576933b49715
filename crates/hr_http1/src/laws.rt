//! Laws of messages, whatever reads and writes them (RFC 9112).
ghost use Rattle.std.specs.Prelude.{◌≡◌, ◌≢◌, ◌⊎◌, ◌<◌, ◌≤◌, ◌+◌, ℕ, Bool, Some, ◌++◌, length};
ghost use Rattle.hr_base.specs.Bytes.{ByteList};
ghost use Rattle.hr_body.specs.declared.body.Body.{Body};
ghost use Rattle.hr_body.specs.declared.fault.WireFault.{WireFault};
ghost use Rattle.hr_body.specs.declared.fault.WireFault.TheVariants.{Failed, Ended, TooLong, Memory};
ghost use Rattle.hr_body.specs.declared.stage.Stage.TheVariants.{Done};
ghost use Rattle.hr_body.specs.Reading.{in_word, GaveOf, LostOf};
ghost use Rattle.hr_http1.specs.declared.message.Reply.{Reply};
ghost use Rattle.hr_http1.specs.declared.message.Request.{Request};
ghost use Rattle.hr_http1.specs.Body.{BodyFacts};
ghost use Rattle.hr_http1.specs.Reply.{OpensReply, ReplyLost, SpellsReply};
ghost use Rattle.hr_http1.specs.Request.{RequestLost, SpellsRequest};
ghost use Rattle.hr_http1.specs.Sendable.{reply_as_read, request_as_read};
ghost use Rattle.hr_http1.specs.Sendable.{IsSendableReply, IsSendableRequest};
ghost use Rattle.hr_http1.specs.Written.{reply_text, request_text_of};

use hr_body::{bodies_are_the_grammars, bytes_have_one_outcome, pieces_are_of_one_body};

/// A law: the bodies that are read by the stages of `hr_body` are those of their framings.
pub fn bodies_are_read_by_their_framing()
    ensures { BodyFacts }
{
    bodies_are_the_grammars();
    bytes_have_one_outcome();
    pieces_are_of_one_body();
}

/// A law: bytes begin with at most one message.
pub fn bytes_begin_with_one_message()
    ensures reply { (head_only : Bool) (bytes rest left : ByteList) (one other : Reply)
        → SpellsReply head_only bytes one rest → SpellsReply head_only bytes other left
        → (one ≡ other) × (rest ≡ left) }
    ensures request { (bytes rest left : ByteList) (one other : Request)
        → SpellsRequest bytes one rest → SpellsRequest bytes other left
        → (one ≡ other) × (rest ≡ left) }
{
    bodies_are_read_by_their_framing();
}

/// A law: where bytes begin with a message whose body keeps the limit, no fault explains that none
/// is read, but one of the device, and want of memory.
pub fn a_message_that_is_there_is_read()
    ensures reply { (head_only : Bool) (limit : ℕ) (bytes rest : ByteList) (reply : Reply)
        (why : WireFault) → SpellsReply head_only bytes reply rest → length reply.body ≤ limit
        → ReplyLost head_only limit bytes why → (why ≡ Failed) ⊎ (why ≡ Memory) }
    ensures request { (limit : ℕ) (bytes rest : ByteList) (request : Request) (why : WireFault)
        → SpellsRequest bytes request rest → length request.body ≤ limit
        → RequestLost limit bytes why → (why ≡ Failed) ⊎ (why ≡ Memory) }
{
    bodies_are_read_by_their_framing();
}

/// A law: a front of a message whose body keeps the limit comes to `Ended` behind its last byte
/// where it is not read, but for a fault of the device and want of memory.
pub fn a_message_that_is_cut_off_is_ended()
    ensures reply { (head_only : Bool) (limit : ℕ) (front more rest : ByteList) (reply : Reply)
        (why : WireFault) → SpellsReply head_only (front ++ more) reply rest
        → length reply.body ≤ limit → ReplyLost head_only limit front why → why ≢ Failed
        → why ≢ Memory → why ≡ Ended (in_word (length front)) }
    ensures request { (limit : ℕ) (front more rest : ByteList) (request : Request)
        (why : WireFault) → SpellsRequest (front ++ more) request rest
        → length request.body ≤ limit → RequestLost limit front why → why ≢ Failed
        → why ≢ Memory → why ≡ Ended (in_word (length front)) }
{
    bodies_are_read_by_their_framing();
}

/// A law: a message whose body passes the limit comes to `TooLong`, with the body's length or with
/// one more than the limit, but for a fault of the device and want of memory.
pub fn a_body_past_the_limit_is_too_long()
    ensures reply { (head_only : Bool) (limit : ℕ) (bytes rest : ByteList) (reply : Reply)
        (why : WireFault) → SpellsReply head_only bytes reply rest → limit < length reply.body
        → ReplyLost head_only limit bytes why → why ≢ Failed → why ≢ Memory
        → (why ≡ TooLong (length reply.body)) ⊎ (why ≡ TooLong (in_word (limit + 1))) }
    ensures request { (limit : ℕ) (bytes rest : ByteList) (request : Request) (why : WireFault)
        → SpellsRequest bytes request rest → limit < length request.body
        → RequestLost limit bytes why → why ≢ Failed → why ≢ Memory
        → (why ≡ TooLong (length request.body)) ⊎ (why ≡ TooLong (in_word (limit + 1))) }
{
    bodies_are_read_by_their_framing();
}

/// A law: the pieces that are read of the body of a reply that was opened are at the front of the
/// body of the one reply that the bytes spell; where the body is at its end, they are all of it;
/// and why no further piece is read is why no reply is read.
pub fn pieces_are_of_the_reply()
    ensures piece { (head_only : Bool) (limit : ℕ) (bytes rest left over : ByteList)
        (reply whole : Reply) (body now : Body) (piece : ByteList)
        → OpensReply head_only limit bytes reply body rest
        → GaveOf (Some rest) body piece now (Some left)
        → SpellsReply head_only bytes whole over
        → (more : ByteList) × (whole.body ≡ piece ++ more) }
    ensures all { (head_only : Bool) (limit : ℕ) (bytes rest left : ByteList)
        (reply whole : Reply) (body now : Body)
        → OpensReply head_only limit bytes reply body rest
        → GaveOf (Some rest) body whole.body now (Some left) → now.stage ≡ Done
        → whole.status ≡ reply.status → whole.heads ≡ reply.heads
        → SpellsReply head_only bytes whole left }
    ensures fault { (head_only : Bool) (limit : ℕ) (bytes rest mid left : ByteList)
        (reply : Reply) (body now later : Body) (piece : ByteList) (why : WireFault)
        → OpensReply head_only limit bytes reply body rest
        → GaveOf (Some rest) body piece now (Some mid)
        → LostOf (Some mid) now why later (Some left) → ReplyLost head_only limit bytes why }
{
    bodies_are_read_by_their_framing();
    pieces_are_of_one_body();
}

/// A law: what is written for a message is read as that message, with the line that gives the
/// length of its body, and without a body that is not written.
pub fn what_is_written_is_read_back()
    ensures reply { (head_only : Bool) (reply : Reply) (rest : ByteList)
        → IsSendableReply head_only reply
        → SpellsReply head_only (reply_text head_only reply ++ rest)
        (reply_as_read head_only reply) rest }
    ensures request { (request : Request) (rest : ByteList) → IsSendableRequest request
        → SpellsRequest (request_text_of request ++ rest) (request_as_read request) rest }
{}

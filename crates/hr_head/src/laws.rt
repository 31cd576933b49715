//! Laws of heads, whatever reads them (RFC 9112, sections 2 to 5).
ghost use Rattle.std.specs.Prelude.{◌≡◌, ◌≢◌, ◌⊎◌, ◌<◌, ◌≤◌, ◌+◌, [], ◌++◌, length, take};
ghost use Rattle.httparse.specs.Grammar.{RequestHead as Grammatical, ReadsRequest as ReadsGrammatical};
ghost use Rattle.httparse.specs.Grammar.{ResponseHead, ReadsResponse};
ghost use Rattle.hr_base.specs.Bytes.{ByteList};
ghost use Rattle.hr_body.specs.declared.fault.WireFault.{WireFault};
ghost use Rattle.hr_body.specs.declared.fault.WireFault.TheVariants.{Failed, TooLong, Memory};
ghost use Rattle.hr_head.specs.declared.field.TheConstants.{FIELD_LIMIT, HEAD_LIMIT};
ghost use Rattle.hr_head.specs.Reply.{ReadsReply, ReplyFault};
ghost use Rattle.hr_head.specs.Request.{ReadsRequest, RequestFault};

/// A law: bytes begin with at most one head of a reply, and with at most one of a request.
pub fn bytes_begin_with_one_head()
    ensures reply { (bytes rest left : ByteList) (one other : ResponseHead)
        → ReadsReply bytes one rest → ReadsReply bytes other left
        → (one ≡ other) × (rest ≡ left) }
    ensures request { (bytes rest left : ByteList) (one other : Grammatical)
        → ReadsRequest bytes one rest → ReadsRequest bytes other left
        → (one ≡ other) × (rest ≡ left) }
{}

/// A law: where bytes begin with a head within the limits, no fault explains that none is read, but
/// one of the device, and want of memory.
pub fn a_head_that_is_there_is_read()
    ensures reply { (bytes rest : ByteList) (h : ResponseHead) (why : WireFault)
        → ReadsReply bytes h rest → ReplyFault bytes why → (why ≡ Failed) ⊎ (why ≡ Memory) }
    ensures request { (bytes rest : ByteList) (h : Grammatical) (why : WireFault)
        → ReadsRequest bytes h rest → RequestFault bytes why → (why ≡ Failed) ⊎ (why ≡ Memory) }
{}

/// A law: bytes past the limit, of which the first 65,536 go on to a head of at most 100 lines, come to
/// `TooLong` where no head is read off them, but for a fault of the device and want of memory.
pub fn a_head_past_the_limit_is_too_long()
    ensures reply { (bytes more : ByteList) (h : ResponseHead) (why : WireFault)
        → HEAD_LIMIT < length bytes → ReadsResponse (take HEAD_LIMIT bytes ++ more) h []
        → length h.fields ≤ FIELD_LIMIT → ReplyFault bytes why
        → why ≢ Failed → why ≢ Memory → why ≡ TooLong (HEAD_LIMIT + 1) }
    ensures request { (bytes more : ByteList) (h : Grammatical) (why : WireFault)
        → HEAD_LIMIT < length bytes → ReadsGrammatical (take HEAD_LIMIT bytes ++ more) h []
        → length h.fields ≤ FIELD_LIMIT → RequestFault bytes why
        → why ≢ Failed → why ≢ Memory → why ≡ TooLong (HEAD_LIMIT + 1) }
{}

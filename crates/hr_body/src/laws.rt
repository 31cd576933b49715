//! Laws of bodies, whatever reads them (RFC 9112, sections 6.3 and 7.1).
ghost use Rattle.std.specs.Prelude.{◌≡◌, ◌≢◌, ◌↔◌, ◌<◌, ◌≤◌, ◌+◌, ℕ, [], ◌++◌, length, Some};
ghost use Rattle.hr_base.specs.Bytes.{ByteList};
ghost use Rattle.hr_body.specs.declared.fault.WireFault.{WireFault};
ghost use Rattle.hr_body.specs.declared.fault.WireFault.TheVariants.{Failed, TooLong};
ghost use Rattle.hr_body.specs.declared.stage.Stage.{Stage};
ghost use Rattle.hr_body.specs.declared.stage.Stage.TheVariants.{Sized, ToEnd};
ghost use Rattle.hr_body.specs.Chunked.{IsChunked};
ghost use Rattle.hr_body.specs.Leading.{Leads, HoldsBody, BeginsNoBody};
ghost use Rattle.hr_body.specs.Leading.{Strays, IsUnended, HasLineRoom};
ghost use Rattle.hr_body.specs.Reading.{BrokeOff, in_word};
ghost use Rattle.hr_body.specs.Stage.{chunked_start};

/// A law: a piece that was given is at the front of the one body that the bytes hold, and the body
/// goes on from there. Bytes that stray are the beginning of no body, and bytes that end where more
/// have to come hold none.
pub fn pieces_are_of_one_body()
    ensures piece { (p q : Stage) (bytes front piece left body rest : ByteList)
        → bytes ≡ front ++ left → Leads p front piece q → HoldsBody p bytes body rest
        → (more : ByteList) × (body ≡ piece ++ more) × HoldsBody q left more rest }
    ensures unique { (p : Stage) (bytes one other rest left : ByteList)
        → HoldsBody p bytes one rest → HoldsBody p bytes other left
        → (one ≡ other) × (rest ≡ left) }
    ensures strays { (p : Stage) (room : ℕ) (front : ByteList)
        → Strays p room front → BeginsNoBody p front }
    ensures ended { (p q : Stage) (bytes piece body rest : ByteList)
        → Leads p bytes piece q → IsUnended q → ¬ (HoldsBody p bytes body rest) }
{}

/// A law: a chunked body is one by the grammar, both ways; a body of a known length is the first
/// that many bytes; and one that goes to the end is all the bytes.
pub fn bodies_are_the_grammars()
    ensures chunked { (bytes body rest : ByteList)
        → HoldsBody chunked_start bytes body rest ↔ IsChunked bytes body rest }
    ensures sized { (more : ℕ) (bytes body rest : ByteList)
        → HoldsBody (Sized more) bytes body rest
        ↔ ((length body ≡ more + 1) × (bytes ≡ body ++ rest)) }
    ensures to_end { (bytes body rest : ByteList)
        → HoldsBody ToEnd bytes body rest ↔ ((body ≡ bytes) × (rest ≡ [])) }
{}

/// A law: bytes of a chunked body that end where more have to come can go on to a whole body, where
/// the line in which they end, if any, has room to end.
pub fn what_is_cut_off_can_go_on()
    ensures { (front piece : ByteList) (q : Stage)
        → Leads chunked_start front piece q → IsUnended q → HasLineRoom q
        → (more : ByteList) × (body : ByteList) × HoldsBody chunked_start (front ++ more) body [] }
{}

/// A law: what the bytes of a device come to, where it tells them, is one. A body within the limit
/// leaves no fault but one of the device; bytes that give more than the limit come to `TooLong`;
/// and two faults of the same bytes are one.
pub fn bytes_have_one_outcome()
    ensures held { (bytes body rest left : ByteList) (p : Stage) (at room limit : ℕ)
        (why : WireFault) → HoldsBody p bytes body rest → length body ≤ room
        → BrokeOff (Some bytes) p at room limit why (Some left) → why ≡ Failed }
    ensures too_long { (bytes front rest left : ByteList) (p q : Stage) (piece : ByteList)
        (at room limit : ℕ) (why : WireFault)
        → bytes ≡ front ++ rest → Leads p front piece q → room < length piece
        → BrokeOff (Some bytes) p at room limit why (Some left) → why ≢ Failed
        → why ≡ TooLong (in_word (limit + 1)) }
    ensures one { (bytes left over : ByteList) (p : Stage) (at room limit : ℕ)
        (why also : WireFault) → BrokeOff (Some bytes) p at room limit why (Some left)
        → BrokeOff (Some bytes) p at room limit also (Some over)
        → why ≢ Failed → also ≢ Failed → why ≡ also }
{}

//! Laws of calls as requests and of answers as replies, whatever reads and writes them.
ghost use Rattle.std.specs.Prelude.{Ok, Result};
ghost use Rattle.hr_base.specs.Bytes.{Text};
ghost use Rattle.hr_call.specs.declared.answer.Answer.{Answer};
ghost use Rattle.hr_call.specs.declared.call.Call.{Call};
ghost use Rattle.hr_http1.specs.Sendable.{reply_as_read, request_as_read};
ghost use Rattle.hr_route.specs.declared.route.NoRoute.{NoRoute};
ghost use Rattle.hr_wire.specs.declared.answers.NotAnswer.{NotAnswer};
ghost use Rattle.hr_wire.specs.Answer.{IsAnswerOf};
ghost use Rattle.hr_wire.specs.Call.{Gives, IsCallOf};
ghost use Rattle.hr_wire.specs.Fitting.{IsAnswerTo, IsThis, asks_head};
ghost use Rattle.hr_wire.specs.Reply.{reply_value};
ghost use Rattle.hr_wire.specs.Request.{IsSendable, request_value};

use hr_route::what_is_asked_is_read_back;

/// A law: a call is read back from its request, as it was made and as it is read off a link, unless
/// memory runs out.
pub fn what_is_sent_is_read_back()
    ensures made { (host : Text) (call : Call) (answer : Result Call NoRoute) → IsSendable call
        → IsCallOf (request_value host call) answer → Gives (Ok call) answer }
    ensures read { (host : Text) (call : Call) (answer : Result Call NoRoute) → IsSendable call
        → IsCallOf (request_as_read (request_value host call)) answer → Gives (Ok call) answer }
{
    what_is_asked_is_read_back();
}

/// A law: an answer to a call is read back from its reply, as it was made and as it is read off a
/// link, unless memory runs out.
pub fn what_is_answered_is_read_back()
    ensures made { (call : Call) (answer : Answer) (result : Result Answer NotAnswer)
        → IsAnswerTo call answer → IsAnswerOf call (reply_value call answer) result
        → IsThis answer result }
    ensures read { (call : Call) (answer : Answer) (result : Result Answer NotAnswer)
        → IsAnswerTo call answer
        → IsAnswerOf call (reply_as_read (asks_head call) (reply_value call answer)) result
        → IsThis answer result }
{}

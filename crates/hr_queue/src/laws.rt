//! Laws of queues, for whoever serves turns over a board. (Our own.)
ghost use Rattle.std.specs.Prelude.{◌≡◌, ◌≤◌, ◌<◌, ◌++◌, ◌∷◌, [], ℕ, List};
ghost use Rattle.std.specs.List.{AllByRecursion, Contains};
ghost use Rattle.hr_board.specs.Over.{WasOver};
ghost use Rattle.hr_board.specs.View as board;
ghost use Rattle.hr_board.specs.View.{Keeps, Notes};
ghost use Rattle.hr_event.specs.declared.task.Turn.{Turn};
ghost use Rattle.hr_queue.specs.declared.answer.DoneJob.{DoneJob};
ghost use Rattle.hr_queue.specs.declared.answer.Queued.{Queued};
ghost use Rattle.hr_queue.specs.declared.answer.Settled.{Settled};
ghost use Rattle.hr_queue.specs.declared.answer.Taken.{Taken};
ghost use Rattle.hr_queue.specs.declared.answer.Taken.TheVariants as taken;
ghost use Rattle.hr_queue.specs.Adding.{Adds, IsFit};
ghost use Rattle.hr_queue.specs.ByJob.{without_job};
ghost use Rattle.hr_queue.specs.Gains.{Agrees, Gains, IsDone, times_listed};
ghost use Rattle.hr_queue.specs.Settling.{Settles, SettlesHeld};
ghost use Rattle.hr_queue.specs.Taking.{Takes};
ghost use Rattle.hr_queue.specs.View.{View, AreDistinct, empty_queue};
ghost use Rattle.hr_queue.specs.Whole.{IsWhole};

/// A law: every added job stands in exactly one list, once.
pub fn each_added_job_stands_in_one_list()
    ensures { (q : View) (job : Queued) → IsWhole q → Contains q.added job
        → times_listed q job.job.0 ≡ 1 }
{}

/// A law: a job whose number is above those of the others is new among them.
pub fn a_later_job_is_new()
    ensures { (jobs : List Queued) (job : Queued) → AreDistinct jobs
        → AllByRecursion (λ a. a.job.0 < job.job.0) jobs → AreDistinct (jobs ++ job ∷ []) }
{}

/// A law: what each call adds to a queue and its board. Each job that it ends is over by a noted
/// mark, and each word that it opens is of an added job, at a revision below its attempts.
pub fn what_calls_gain()
    ensures take { (now : ℕ) (q r : View) (b : board.View) (answer : Taken)
        → Takes now q answer r → Gains q b [] r b }
    ensures add { (q r : View) (b c : board.View) (jobs : List Queued)
        → AllByRecursion (IsFit b.jobs) jobs → Adds q b jobs r c → Gains q b jobs r c }
    ensures settle { (now : ℕ) (q r : View) (b c : board.View) (turn : Turn) (answer : Settled)
        → IsWhole q → Settles now q b turn answer r c → Gains q b [] r c }
{}

/// A law: a turn that was out and is given back is out no more, and every other one that is out
/// stays.
pub fn a_turn_taken_back_is_out_no_more()
    ensures { (now : ℕ) (q r : View) (b c : board.View) (turn : Turn) (answer : Settled)
        → SettlesHeld now q b turn answer r c → r.out ≡ without_job q.out turn.job.0 }
{}

/// A law: no call adds nothing, and what two calls in turn add adds up.
pub fn gains_add_up()
    ensures none { (q : View) (b : board.View) → Gains q b [] q b }
    ensures both { (q m r : View) (b d c : board.View) (jobs more : List Queued)
        → Gains q b jobs m d → Gains m d more r c → Gains q b (jobs ++ more) r c }
{}

/// A law: a queue and its board agree where nothing was done yet, after every call, and whatever
/// others do that opens no word by this board.
pub fn a_queue_agrees_with_its_board()
    ensures new { (b : board.View) → b.opens ≡ [] → Agrees empty_queue b }
    ensures calls { (q r : View) (b c : board.View) (jobs : List Queued)
        → Agrees q b → Gains q b jobs r c → Agrees r c }
    ensures others { (q : View) (b c : board.View)
        → Agrees q b → Keeps b c → c.opens ≡ b.opens → Agrees q c }
{}

/// A law: a done job was over, by a noted mark; and where a take finds nothing left, each added job
/// was.
pub fn done_jobs_were_over()
    ensures done { (added : List Queued) (notes : Notes) (over : DoneJob) → IsDone added notes over
        → (attempts : ℕ) × Contains added (record { job = over.job; attempts = attempts })
        × WasOver notes over.job.0 attempts }
    ensures idle { (now : ℕ) (q r : View) (b : board.View) (job : Queued)
        → IsWhole q → Agrees q b → Takes now q taken.Idle r → Contains q.added job
        → WasOver b.notes job.job.0 job.attempts }
{}

//! The laws of what code means. Each is the contract of a function that does nothing.

ghost use Rattle.std.specs.Prelude.{◌≡◌, ℕ, ℤ, List, Ok, Some};
ghost use Rattle.arrayvec.specs.ArrayVec.{ArrayVec};
ghost use Rattle.mate_num.specs.Uses.{uses};
ghost use Rattle.mate_num.specs.declared.shape.Shape.{Shape};
ghost use Rattle.mate_num.specs.declared.store.Store.{Store};
ghost use Rattle.mate_code.specs.Cells.{Agree};
ghost use Rattle.mate_code.specs.CodeUses.{uses_of};
ghost use Rattle.mate_code.specs.Run.{Code, fetch};
ghost use Rattle.mate_code.specs.Verification.{Marks, depth_at, IsVerified, IsSoundCode, IsFitting, GoesOnFitting};
ghost use Rattle.mate_code.specs.BytesVerification.{bytes_verification, AreVerified};
ghost use Rattle.mate_code.specs.Code.{AreBytes};
ghost use Rattle.mate_code.specs.Effect.{Private, effect};
ghost use Rattle.mate_code.specs.declared.instr.Instr.{Instr};
ghost use Rattle.mate_code.specs.Laws.{OnlyWrites, IsSameRun, GoesOnAnswered, EndsOnce, EndsInTime};

/// A run changes nothing outside what its code writes.
pub fn changes_what_it_writes()
    ensures { (shape : Shape) (code : Code) (store : Store) (msg : ArrayVec ℤ) (answers : List ℤ) (turns : ℕ) →
        OnlyWrites shape code store msg answers turns }
{}

/// Stores that agree on what the code uses give the same end, calls and marks, and the same values there.
pub fn sees_what_it_uses()
    ensures { (shape : Shape) (code : Code) (s t : Store) (msg : ArrayVec ℤ) (answers : List ℤ) (turns : ℕ) →
        Agree (uses (uses_of shape code)) s t → IsSameRun shape code s t msg answers turns }
{}

/// One more answer continues the same run.
pub fn goes_on_with_an_answer()
    ensures { (shape : Shape) (code : Code) (store : Store) (msg : ArrayVec ℤ) (answers : List ℤ) (turns : ℕ) →
        GoesOnAnswered shape code store msg answers turns }
{}

/// Two ends of one run are one.
pub fn ends_once()
    ensures { (shape : Shape) (code : Code) (store : Store) (msg : ArrayVec ℤ) (answers : List ℤ) (turns : ℕ) →
        EndsOnce shape code store msg answers turns }
{}

/// Verified code never misses an operand or a place, and ends in time.
pub fn ends_in_time()
    ensures { (shape : Shape) (code : Code) (marks : Marks) (store : Store) (msg : ArrayVec ℤ) (answers : List ℤ) (turns : ℕ) →
        IsVerified shape code marks → EndsInTime shape code store msg answers turns }
{}

/// Verified code is sound: what each instruction names exists, its operands are on the stack, and it goes on at an
/// instruction. So a machine that fits the code fits it after each step, whatever the store holds.
pub fn is_sound_where_verified()
    ensures of_bytes { (shape : Shape) (bytes : List ℕ) (code : Code) (marks : Marks) →
        AreBytes bytes → bytes_verification shape bytes ≡ Ok (code, marks) → AreVerified shape bytes code marks }
    ensures sound { (shape : Shape) (code : Code) (marks : Marks) → IsVerified shape code marks → IsSoundCode shape code (depth_at marks) }
    ensures fits { (shape : Shape) (code : Code) (marks : Marks) (p : Private) (i : Instr) (cell : List ℤ) →
        IsVerified shape code marks → IsFitting code (depth_at marks) p → fetch code p.pc ≡ Some i
        → GoesOnFitting code (depth_at marks) (effect shape i p cell) }
{}

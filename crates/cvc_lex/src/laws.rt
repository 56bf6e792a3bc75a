//! Laws of logical lines, for a reader that stops before the end of its file. Each is the contract of a function that does nothing.
ghost use Rattle.std.specs.Prelude.{◌≡◌, ◌≤◌, ◌++◌, ℕ, List, Some, None, All, length};
ghost use Rattle.cvc_base.specs.declared.fault.Fault.{Fault};
ghost use Rattle.cvc_base.specs.declared.fault.FileKind.{FileKind};
ghost use Rattle.cvc_lex.specs.Bytes.{file_limit};
ghost use Rattle.cvc_lex.specs.Laws.{HasToken, IsFront};
ghost use Rattle.cvc_lex.specs.Lines.{closed_at_end, closed_so_far, lexical, sure_fault};

/// A line that is closed stays: the lines closed so far are a front of those that are closed later, and of those of the whole file.
pub fn closed_lines_stay()
    ensures later { (file : FileKind) (stream more : List ℕ) → IsFront (closed_so_far file stream) (closed_so_far file (stream ++ more)) }
    ensures whole { (file : FileKind) (stream more : List ℕ) → IsFront (closed_so_far file stream) (closed_at_end file (stream ++ more)) }
{}

/// After a sure fault neither the fault nor the closed lines change, whatever follows.
pub fn a_sure_fault_decides()
    ensures later { (file : FileKind) (stream more : List ℕ) (fault : Fault) → sure_fault file stream ≡ Some fault
        → sure_fault file (stream ++ more) ≡ Some fault }
    ensures later_lines { (file : FileKind) (stream more : List ℕ) (fault : Fault) → sure_fault file stream ≡ Some fault
        → closed_so_far file (stream ++ more) ≡ closed_so_far file stream }
    ensures whole { (file : FileKind) (stream more : List ℕ) (fault : Fault) → sure_fault file stream ≡ Some fault
        → lexical file (stream ++ more) ≡ Some fault }
    ensures whole_lines { (file : FileKind) (stream more : List ℕ) (fault : Fault) → sure_fault file stream ≡ Some fault
        → closed_at_end file (stream ++ more) ≡ closed_so_far file stream }
{}

/// Each logical line has a token.
pub fn each_line_has_a_token()
    ensures so_far { (file : FileKind) (stream : List ℕ) → All HasToken (closed_so_far file stream) }
    ensures whole { (file : FileKind) (bytes : List ℕ) → All HasToken (closed_at_end file bytes) }
{}

/// A file without a lexical fault has no more logical lines than its limit has bytes.
pub fn lines_are_few()
    ensures { (file : FileKind) (bytes : List ℕ) → lexical file bytes ≡ None → length (closed_at_end file bytes) ≤ file_limit file }
{}

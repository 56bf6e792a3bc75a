//! Laws of netlists. Each is the contract of a function that does nothing.
ghost use Rattle.std.specs.Prelude.{◌≡◌, ℕ, List, Option, Ok};
ghost use Rattle.cvc_cdl.specs.declared.netlist.Netlist.{Netlist};
ghost use Rattle.cvc_cdl.specs.Alike.{AreAlike, IsPrintable, MeetsLimits};
ghost use Rattle.cvc_cdl.specs.File.{file_of};
ghost use Rattle.cvc_cdl.specs.Text.{text_of};

/// A printed netlist reads back. Where a file has a netlist, its printed text with the same top has the same netlist but for the numbers of
/// lines, if the text meets the limits of files, lines and tokens and no global net is named by a lone `/`.
pub fn a_printed_netlist_reads_back()
    ensures { (bytes : List ℕ) (top : Option (List ℕ)) (n : Netlist) → file_of bytes top ≡ Ok n → IsPrintable n → MeetsLimits (text_of n)
        → (m : Netlist) × (file_of (text_of n) top ≡ Ok m) × AreAlike m n }
{}

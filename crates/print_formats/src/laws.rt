//! Laws of formats: each is the clause of a function that does nothing.

ghost use Rattle.std.specs.Prelude.{◌≡◌, ◌+◌, ◌≤◌, ◌<◌, ◌^◌, ℕ, List, ◌++◌, length, max};
ghost use Rattle.std.specs.Str.Parse.{signed_digits_value};
ghost use Rattle.fc_base.specs.declared.levels.Width.{Width};
ghost use Rattle.print_formats.specs.declared.conversions.Numeral.{Numeral};
ghost use Rattle.print_formats.specs.declared.conversions.Options.{Options};
ghost use Rattle.print_formats.specs.Texts.{base_of, number_text, padded, printed_number};
ghost use Rattle.print_formats.specs.Laws.{plain};

/// What is printed is as long as the field width or its characters, whichever is more, and where these are no fewer than the
/// field width they are what is printed.
pub fn width_law()
    ensures longer { (o : Options) (sign body : List ℕ) → length (padded o sign body) ≡ max o.width (length sign + length body) }
    ensures exact { (o : Options) (sign body : List ℕ) → o.width ≤ length sign + length body → padded o sign body ≡ sign ++ body }
{}

/// Without flags and field width, what is printed of an integer denotes it in the numeral's base.
pub fn number_law()
    ensures { (numeral : Numeral) (of : Width) (argument : ℕ) →
        signed_digits_value (base_of numeral) (number_text plain numeral of argument) ≡ printed_number numeral of argument }
{}

//! The text of a datum, as its definition has it.

ghost use Rattle.std.specs.Prelude.{◌≡◌};
ghost use Rattle.rh_lisp_reader.specs.Data.{datum_text};
ghost use Rattle.lisp_tests.specs.Texts.{each_kind as each_kind_as};

/// The text of a datum that has one of each kind in it.
pub fn each_kind() -> &'static [u8]
    ensures { result.now ≡ datum_text each_kind_as }
{
    b"(10 (-7 . #\\a) \"a\\\"\\\\\\n\\t\" #(x () #t) #\\newline #f . #\\space)".as_slice()
}

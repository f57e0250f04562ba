// Laws of generated texts.
ghost use Rattle.std.specs.Prelude.{◌≡◌, ◌<◌, ◌≤◌, IsTrue, Ok, length};
ghost use Rattle.mage_texts.specs.InputText.{inputs_of};
ghost use Rattle.mage_gen.specs.declared.order.GenOrder.{GenOrder};
ghost use Rattle.mage_gen.specs.Generator.{IsOrder, has_inputs, garbler_text, evaluator_text, garbler_widths, evaluator_widths, garbler_lists, evaluator_lists};
ghost use Rattle.mage_gen.specs.Source.{source_text};

/// The input texts of an order that isn't too long, read for values of 32 bits, give each worker's
/// numbers.
pub fn inputs_are_read()
    ensures garbler { (order : GenOrder) → IsTrue (has_inputs order)
        → inputs_of (garbler_text order) (garbler_widths order) ≡ Ok (garbler_lists order) }
    ensures evaluator { (order : GenOrder) → IsTrue (has_inputs order)
        → inputs_of (evaluator_text order) (evaluator_widths order) ≡ Ok (evaluator_lists order) }
{}

/// The text of an order's source is shorter than 1,048,576 bytes, and each input text has at most
/// 67,108,864.
pub fn files_are_short()
    ensures source { (order : GenOrder) → IsOrder order → length (source_text order) < 1048576 }
    ensures garbler { (order : GenOrder) → length (garbler_text order) ≤ 67108864 }
    ensures evaluator { (order : GenOrder) → length (evaluator_text order) ≤ 67108864 }
{}

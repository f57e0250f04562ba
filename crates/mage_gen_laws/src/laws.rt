// What holds of all generated texts.
ghost use Rattle.mage_gen.specs.declared.order.GenOrder.{GenOrder};
ghost use Rattle.mage_gen.specs.Generator.{IsOrder};
ghost use Rattle.mage_gen.specs.Source.{source_text};
ghost use Rattle.mage_gen_laws.specs.Printed.{IsPrintedSource};

/// The text that is made of an order has tokens, is the text that is printed of them, and is read as
/// a source with the order's number of workers.
pub fn generated_texts_are_sources()
    ensures { (order : GenOrder) → IsOrder order
        → IsPrintedSource order.workers (source_text order) }
{}

// The text of a generated source.
ghost use Rattle.std.specs.Prelude.{◌≡◌, IfOk};
ghost use Rattle.std.specs.String.{string_bytes};
ghost use Rattle.mage_gen.specs.Source.{source_text};

use crate::order::GenOrder;
use mage_base::Memory;
use std::alloc::Global;

// The text of the source, each token with what is printed behind it.
pub fn source_of(alloc: Global, order: GenOrder) -> Result<String, Memory>
    ensures { IfOk result (λ text. string_bytes text ≡ source_text order) }
{
    let workers = order.workers;
    let items = order.items;
    let rows = order.rows;
    let text = format!(in alloc;
        "workers {workers} ;\nconst N = {items} ;\nconst M = {rows} ;\n\
        array t : u32 [ M ] = lit u32 ( 0 ) ;\n\
        for w in 0 .. {workers} {{\non w {{\ninput garbler x : u32 [ N ] ;\n\
        for r in 0 .. M {{\ninput evaluator a : u32 [ N ] ;\nlet s = lit u32 ( 0 ) ;\n\
        for i in 0 .. N {{\ns = s + x [ i ] * a [ i ] ;\n}}\n\
        on 0 {{\nmove p = s ;\nt [ r ] = t [ r ] + p ;\n}}\n}}\n}}\n}}\n\
        for r in 0 .. M {{\noutput t [ r ] ;\n}}\n"
    )?;
    Ok(text)
}

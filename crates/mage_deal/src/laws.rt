// Laws of what is dealt.
ghost use Rattle.mage_deal.specs.Laws.{DealtByTheEvaluatorAlone};

/// What is dealt to a worker depends on the program, the seed and the worker's own values of the evaluator alone.
pub fn law_of_dealing()
    ensures { DealtByTheEvaluatorAlone }
{}

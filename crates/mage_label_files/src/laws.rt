// Laws of the labels that are read.
ghost use Rattle.mage_label_files.specs.Labels.{AsManyLabels, LabelsAreReadBack, ReadLabelsAreWhole};

/// Labels that were written one behind the other, as `deal` writes them, are read back.
pub fn labels_are_read_back()
    ensures { LabelsAreReadBack }
{}

/// Each label that is read of as many bytes as all have has its 16 bytes.
pub fn read_labels_are_whole()
    ensures { ReadLabelsAreWhole }
{}

/// As many labels are read as are asked for.
pub fn as_many_labels()
    ensures { AsManyLabels }
{}

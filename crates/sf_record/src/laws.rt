//! Laws about the bytes of records, called for their clauses alone: they determine the records.
ghost use Rattle.sf_record.specs.Reading.{AreDetermined, AreReadBack};

/// The law that records can be read back from their bytes, where each number fits its field.
pub fn records_are_read_back()
    ensures { AreReadBack }
{}

/// The law that the bytes of records determine them, where each number fits its field.
pub fn bytes_determine_records()
    ensures { AreDetermined }
{}

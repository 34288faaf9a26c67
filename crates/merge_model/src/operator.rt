ghost use Rattle.std.specs.Prelude.{◌≡◌, ◌≢◌, IfSome, IfNone};
ghost use Rattle.merge_model.specs.OperatorWords.{distance_word, aggregator_word};

/// Which distance a problem is merged by.
#[derive(Clone, Copy, Debug, PartialEq, Eq)]
pub enum DistanceName {
    /// 0 for equal valuations, and 1 otherwise.
    Drastic,
    /// The number of atoms on which two valuations differ.
    Hamming,
}

impl DistanceName {
    /// The word of this distance.
    pub fn word(self) -> &'static str
        ensures { result.now ≡ distance_word self }
    {
        match self {
            DistanceName::Drastic => "drastic",
            DistanceName::Hamming => "hamming",
        }
    }

    /// The distance that has this word, or `None` where none has.
    pub fn of_word(word: &str) -> Option<DistanceName>
        ensures some { IfSome result (λ name. word.now ≡ distance_word name) }
        ensures none { IfNone result ((name : _) → word.now ≢ distance_word name) }
    {
        DistanceName::of_bytes(word.as_bytes())
    }

    /// The distance whose word these bytes are, or `None` where none has them.
    pub fn of_bytes(word: &[u8]) -> Option<DistanceName>
        ensures some { IfSome result (λ name. word.now ≡ distance_word name) }
        ensures none { IfNone result ((name : _) → word.now ≢ distance_word name) }
    {
        match word {
            b"drastic" => Some(DistanceName::Drastic),
            b"hamming" => Some(DistanceName::Hamming),
            _ => None,
        }
    }
}

/// Which aggregator a problem is merged by.
#[derive(Clone, Copy, Debug, PartialEq, Eq)]
pub enum AggregatorName {
    /// The sum of the distances.
    Sum,
    /// The greatest distance.
    Max,
    /// The distances from greatest to least, lexicographically.
    Leximax,
}

impl AggregatorName {
    /// The word of this aggregator.
    pub fn word(self) -> &'static str
        ensures { result.now ≡ aggregator_word self }
    {
        match self {
            AggregatorName::Sum => "sum",
            AggregatorName::Max => "max",
            AggregatorName::Leximax => "leximax",
        }
    }

    /// The aggregator that has this word, or `None` where none has.
    pub fn of_word(word: &str) -> Option<AggregatorName>
        ensures some { IfSome result (λ name. word.now ≡ aggregator_word name) }
        ensures none { IfNone result ((name : _) → word.now ≢ aggregator_word name) }
    {
        AggregatorName::of_bytes(word.as_bytes())
    }

    /// The aggregator whose word these bytes are, or `None` where none has them.
    pub fn of_bytes(word: &[u8]) -> Option<AggregatorName>
        ensures some { IfSome result (λ name. word.now ≡ aggregator_word name) }
        ensures none { IfNone result ((name : _) → word.now ≢ aggregator_word name) }
    {
        match word {
            b"sum" => Some(AggregatorName::Sum),
            b"max" => Some(AggregatorName::Max),
            b"leximax" => Some(AggregatorName::Leximax),
            _ => None,
        }
    }
}

// What holds of every reading of a configuration.
ghost use Rattle.xa_config.specs.Readings.{OneSetup, NoFaultyConfiguration, OneFirstFault};

/// What `read` answers is determined: octets are one configuration at most, and none where they have a first fault; and
/// one fault at most is the first.
pub fn one_reading()
    ensures setup { OneSetup }
    ensures none { NoFaultyConfiguration }
    ensures fault { OneFirstFault }
{}

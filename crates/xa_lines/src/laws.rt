// What holds of every line.
ghost use Rattle.xa_lines.specs.Readings.{OneEvent};

/// What `read_event` answers is determined: a line is one event's at most. So the line of an event is read as that
/// event.
pub fn one_reading()
    ensures { OneEvent }
{}

ghost use Rattle.std.specs.Prelude.{◌≡◌};
ghost use Rattle.dav_report.specs.Calendars.{component_name};

/// What a resource is to a calendar server.
#[derive(Clone, Copy, Debug, PartialEq, Eq)]
pub enum CalDavResourceType {
    Calendar,
    ScheduleInbox,
    ScheduleOutbox,
    CalendarObject,
    Regular,
}

/// A kind of calendar component (RFC 5545 section 3.6).
#[derive(Clone, Copy, Debug, PartialEq, Eq)]
pub enum CalendarComponentType {
    VEvent,
    VTodo,
    VJournal,
    VFreeBusy,
    VTimezone,
    VAlarm,
}

impl CalendarComponentType {
    /// Its name, in capitals.
    pub fn as_str(&self) -> &'static str
        ensures { result.now ≡ component_name self.now }
    {
        match self {
            CalendarComponentType::VEvent => "VEVENT",
            CalendarComponentType::VTodo => "VTODO",
            CalendarComponentType::VJournal => "VJOURNAL",
            CalendarComponentType::VFreeBusy => "VFREEBUSY",
            CalendarComponentType::VTimezone => "VTIMEZONE",
            CalendarComponentType::VAlarm => "VALARM",
        }
    }
}

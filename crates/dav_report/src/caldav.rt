//! Calendars (RFC 4791).
mod component_filter;
mod copying;
mod makers;
mod properties;
mod property_filter;
mod query;
mod resource;

pub use component_filter::{ComponentFilter, ComponentFilters};
pub use makers::{
    calendar_resource_type, create_calendar_home_set, create_supported_calendar_component_set,
    create_supported_calendar_data, is_calendar_collection, schedule_inbox_resource_type,
    schedule_outbox_resource_type,
};
pub use properties::{CalendarProperties, ComponentTypes};
pub use property_filter::{PropertyFilter, PropertyFilters, TimeRange};
pub use query::{CalDavReportType, CalendarQuery};
pub use resource::{CalDavResourceType, CalendarComponentType};

/// The namespace of calendar elements (RFC 4791 section 4).
pub const NS_CALDAV_URI: &str = "urn:ietf:params:xml:ns:caldav";

/// The namespace of the calendar server extensions.
pub const NS_CALENDARSERVER_URI: &str = "http://calendarserver.org/ns/";

/// The name of the directory of calendars.
pub const DEFAULT_CALDAV_NAME: &str = "calendars";

/// The path of the directory of calendars.
pub const DEFAULT_CALDAV_DIRECTORY: &str = "/calendars";

/// The path of the directory of calendars, with a final slash.
pub const DEFAULT_CALDAV_DIRECTORY_ENDSLASH: &str = "/calendars/";

/// The properties of a calendar collection (RFC 4791 sections 5.2 and 6.2, RFC 6638 sections 2.1.1, 2.2.1 and 2.4.1).
pub const CALDAV_PROPERTIES: &[&str] = &[
    "C:calendar-description",
    "C:calendar-timezone",
    "C:supported-calendar-component-set",
    "C:supported-calendar-data",
    "C:max-resource-size",
    "C:min-date-time",
    "C:max-date-time",
    "C:max-instances",
    "C:max-attendees-per-instance",
    "C:calendar-home-set",
    "C:calendar-user-address-set",
    "C:schedule-inbox-URL",
    "C:schedule-outbox-URL",
];

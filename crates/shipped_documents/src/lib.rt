//! The document that is shipped with the agent: the definitions of management information on which other documents stand
//! (X.721, X.734, X.735; docs/DECISIONS.md, Names of the shipped definitions).
#![tactic(auto)]

/// The text of `examples/dmi.gdmo`: classes of X.721, X.734 and X.735 with their attributes, notifications and name
/// bindings, below the identifier 2.999.9. It counts only where it is one of the documents.
pub const DMI: &str =
    "-- Definitions of management information on which other documents stand: top, system, the event forwarding
-- discriminator, the log and its records, with their attributes and notifications, after X.721, X.734 and X.735.
-- The identifiers, below 2.999.9, are this project's own. Name this file beside the documents that use it.

DMI DEFINITIONS IMPLICIT TAGS ::= BEGIN
IMPORTS AttributeId, CMISFilter, EventTypeId, ObjectClass, ObjectInstance FROM CMIP-1;

-- Syntaxes of attributes
ObjectClassIdentifier ::= OBJECT IDENTIFIER
NameBinding ::= OBJECT IDENTIFIER
Packages ::= SET OF OBJECT IDENTIFIER
SimpleName ::= CHOICE { number INTEGER, string GraphicString }
LogRecordId ::= INTEGER
AdministrativeState ::= ENUMERATED { locked(0), unlocked(1), shuttingDown(2) }
OperationalState ::= ENUMERATED { disabled(0), enabled(1) }
AvailabilityStatus ::= SET OF INTEGER
DiscriminatorConstruct ::= CMISFilter
Destination ::= CHOICE { single OBJECT IDENTIFIER, multiple SET OF OBJECT IDENTIFIER }
LogFullAction ::= ENUMERATED { wrap(0), halt(1) }
LogSize ::= INTEGER (0..9223372036854775807)
NumberOfRecords ::= INTEGER (0..9223372036854775807)
LoggingTime ::= GeneralizedTime
ManagedObjectClass ::= ObjectClass
ManagedObjectInstance ::= ObjectInstance
EventType ::= EventTypeId
EventTime ::= GeneralizedTime
EventInformation ::= OCTET STRING
ProbableCause ::= INTEGER
PerceivedSeverity ::= ENUMERATED { indeterminate(0), critical(1), major(2), minor(3), warning(4), cleared(5) }

-- Default values of attributes
defaultAdministrativeState AdministrativeState ::= unlocked
defaultOperationalState OperationalState ::= enabled
defaultAvailabilityStatus AvailabilityStatus ::= {}
defaultDiscriminatorConstruct DiscriminatorConstruct ::= and : {}
defaultLogFullAction LogFullAction ::= wrap
defaultMaxLogSize LogSize ::= 0
defaultCurrentLogSize LogSize ::= 0
defaultNumberOfRecords NumberOfRecords ::= 0

-- Information of notifications
SourceIndicator ::= ENUMERATED { resourceOperation(0), managementOperation(1), unknown(2) }
ObjectInfo ::= SEQUENCE { sourceIndicator SourceIndicator OPTIONAL }
AttributeValueChangeInfo ::= SEQUENCE {
  sourceIndicator SourceIndicator OPTIONAL,
  attributeValueChangeDefinition ValueChangeDefinition }
StateChangeInfo ::= SEQUENCE {
  sourceIndicator SourceIndicator OPTIONAL,
  stateChangeDefinition ValueChangeDefinition }
ValueChangeDefinition ::= SET OF SEQUENCE {
  attributeId AttributeId,
  oldAttributeValue [1] EXPLICIT ANY OPTIONAL,
  newAttributeValue [2] EXPLICIT ANY }
AlarmInfo ::= SEQUENCE { probableCause ProbableCause, perceivedSeverity PerceivedSeverity }
END

-- Attributes, 2.999.9.7

objectClass ATTRIBUTE WITH ATTRIBUTE SYNTAX DMI.ObjectClassIdentifier;
 MATCHES FOR EQUALITY; REGISTERED AS {2 999 9 7 1};
nameBinding ATTRIBUTE WITH ATTRIBUTE SYNTAX DMI.NameBinding;
 MATCHES FOR EQUALITY; REGISTERED AS {2 999 9 7 2};
packages ATTRIBUTE WITH ATTRIBUTE SYNTAX DMI.Packages;
 MATCHES FOR EQUALITY, SET-COMPARISON, SET-INTERSECTION; REGISTERED AS {2 999 9 7 3};
systemId ATTRIBUTE WITH ATTRIBUTE SYNTAX DMI.SimpleName;
 MATCHES FOR EQUALITY; REGISTERED AS {2 999 9 7 4};
discriminatorId ATTRIBUTE WITH ATTRIBUTE SYNTAX DMI.SimpleName;
 MATCHES FOR EQUALITY; REGISTERED AS {2 999 9 7 5};
logId ATTRIBUTE WITH ATTRIBUTE SYNTAX DMI.SimpleName;
 MATCHES FOR EQUALITY; REGISTERED AS {2 999 9 7 6};
logRecordId ATTRIBUTE WITH ATTRIBUTE SYNTAX DMI.LogRecordId;
 MATCHES FOR EQUALITY, ORDERING; REGISTERED AS {2 999 9 7 7};
administrativeState ATTRIBUTE WITH ATTRIBUTE SYNTAX DMI.AdministrativeState;
 MATCHES FOR EQUALITY; REGISTERED AS {2 999 9 7 8};
operationalState ATTRIBUTE WITH ATTRIBUTE SYNTAX DMI.OperationalState;
 MATCHES FOR EQUALITY; REGISTERED AS {2 999 9 7 9};
availabilityStatus ATTRIBUTE WITH ATTRIBUTE SYNTAX DMI.AvailabilityStatus;
 MATCHES FOR EQUALITY, SET-COMPARISON, SET-INTERSECTION; REGISTERED AS {2 999 9 7 10};
discriminatorConstruct ATTRIBUTE WITH ATTRIBUTE SYNTAX DMI.DiscriminatorConstruct;
 REGISTERED AS {2 999 9 7 11};
destination ATTRIBUTE WITH ATTRIBUTE SYNTAX DMI.Destination;
 MATCHES FOR EQUALITY; REGISTERED AS {2 999 9 7 12};
logFullAction ATTRIBUTE WITH ATTRIBUTE SYNTAX DMI.LogFullAction;
 MATCHES FOR EQUALITY; REGISTERED AS {2 999 9 7 13};
maxLogSize ATTRIBUTE WITH ATTRIBUTE SYNTAX DMI.LogSize;
 MATCHES FOR EQUALITY, ORDERING; REGISTERED AS {2 999 9 7 14};
currentLogSize ATTRIBUTE WITH ATTRIBUTE SYNTAX DMI.LogSize;
 MATCHES FOR EQUALITY, ORDERING; REGISTERED AS {2 999 9 7 15};
numberOfRecords ATTRIBUTE WITH ATTRIBUTE SYNTAX DMI.NumberOfRecords;
 MATCHES FOR EQUALITY, ORDERING; REGISTERED AS {2 999 9 7 16};
loggingTime ATTRIBUTE WITH ATTRIBUTE SYNTAX DMI.LoggingTime;
 MATCHES FOR EQUALITY, ORDERING; REGISTERED AS {2 999 9 7 17};
managedObjectClass ATTRIBUTE WITH ATTRIBUTE SYNTAX DMI.ManagedObjectClass;
 MATCHES FOR EQUALITY; REGISTERED AS {2 999 9 7 18};
managedObjectInstance ATTRIBUTE WITH ATTRIBUTE SYNTAX DMI.ManagedObjectInstance;
 MATCHES FOR EQUALITY; REGISTERED AS {2 999 9 7 19};
eventType ATTRIBUTE WITH ATTRIBUTE SYNTAX DMI.EventType;
 MATCHES FOR EQUALITY; REGISTERED AS {2 999 9 7 20};
eventTime ATTRIBUTE WITH ATTRIBUTE SYNTAX DMI.EventTime;
 MATCHES FOR EQUALITY, ORDERING; REGISTERED AS {2 999 9 7 21};
eventInformation ATTRIBUTE WITH ATTRIBUTE SYNTAX DMI.EventInformation;
 MATCHES FOR EQUALITY; REGISTERED AS {2 999 9 7 22};
probableCause ATTRIBUTE WITH ATTRIBUTE SYNTAX DMI.ProbableCause;
 MATCHES FOR EQUALITY, ORDERING; REGISTERED AS {2 999 9 7 23};
perceivedSeverity ATTRIBUTE WITH ATTRIBUTE SYNTAX DMI.PerceivedSeverity;
 MATCHES FOR EQUALITY, ORDERING; REGISTERED AS {2 999 9 7 24};

-- Notifications, 2.999.9.4

objectCreation NOTIFICATION WITH INFORMATION SYNTAX DMI.ObjectInfo;
REGISTERED AS {2 999 9 4 1};
objectDeletion NOTIFICATION WITH INFORMATION SYNTAX DMI.ObjectInfo;
REGISTERED AS {2 999 9 4 2};
attributeValueChange NOTIFICATION WITH INFORMATION SYNTAX DMI.AttributeValueChangeInfo;
REGISTERED AS {2 999 9 4 3};
stateChange NOTIFICATION WITH INFORMATION SYNTAX DMI.StateChangeInfo;
REGISTERED AS {2 999 9 4 4};
communicationsAlarm NOTIFICATION WITH INFORMATION SYNTAX DMI.AlarmInfo
 AND ATTRIBUTE IDS probableCause probableCause, perceivedSeverity perceivedSeverity;
REGISTERED AS {2 999 9 4 5};
processingErrorAlarm NOTIFICATION WITH INFORMATION SYNTAX DMI.AlarmInfo
 AND ATTRIBUTE IDS probableCause probableCause, perceivedSeverity perceivedSeverity;
REGISTERED AS {2 999 9 4 6};
equipmentAlarm NOTIFICATION WITH INFORMATION SYNTAX DMI.AlarmInfo
 AND ATTRIBUTE IDS probableCause probableCause, perceivedSeverity perceivedSeverity;
REGISTERED AS {2 999 9 4 7};

-- Packages and classes, 2.999.9.3

topPackage PACKAGE
 ATTRIBUTES
  objectClass GET,
  nameBinding GET,
  packages GET;;
top MANAGED OBJECT CLASS
 CHARACTERIZED BY topPackage;
REGISTERED AS {2 999 9 3 1};

statesPackage PACKAGE
 ATTRIBUTES
  administrativeState DEFAULT VALUE DMI.defaultAdministrativeState GET-REPLACE,
  operationalState DEFAULT VALUE DMI.defaultOperationalState GET;;
systemPackage PACKAGE
 ATTRIBUTES
  systemId GET;
 NOTIFICATIONS attributeValueChange, stateChange;;
system MANAGED OBJECT CLASS
 DERIVED FROM top;
 CHARACTERIZED BY systemPackage, statesPackage;
REGISTERED AS {2 999 9 3 2};

eventForwardingDiscriminatorPackage PACKAGE
 ATTRIBUTES
  discriminatorId GET,
  discriminatorConstruct REPLACE-WITH-DEFAULT DEFAULT VALUE DMI.defaultDiscriminatorConstruct GET-REPLACE,
  destination GET-REPLACE;
 NOTIFICATIONS objectCreation, objectDeletion;;
eventForwardingDiscriminator MANAGED OBJECT CLASS
 DERIVED FROM top;
 CHARACTERIZED BY eventForwardingDiscriminatorPackage, statesPackage;
REGISTERED AS {2 999 9 3 3};

logPackage PACKAGE
 ATTRIBUTES
  logId GET,
  discriminatorConstruct REPLACE-WITH-DEFAULT DEFAULT VALUE DMI.defaultDiscriminatorConstruct GET-REPLACE,
  availabilityStatus DEFAULT VALUE DMI.defaultAvailabilityStatus GET,
  logFullAction DEFAULT VALUE DMI.defaultLogFullAction GET-REPLACE,
  maxLogSize DEFAULT VALUE DMI.defaultMaxLogSize GET-REPLACE,
  currentLogSize DEFAULT VALUE DMI.defaultCurrentLogSize GET,
  numberOfRecords DEFAULT VALUE DMI.defaultNumberOfRecords GET;
 NOTIFICATIONS objectCreation, objectDeletion, processingErrorAlarm;;
log MANAGED OBJECT CLASS
 DERIVED FROM top;
 CHARACTERIZED BY logPackage, statesPackage;
REGISTERED AS {2 999 9 3 4};

eventLogRecordPackage PACKAGE
 ATTRIBUTES
  logRecordId GET,
  loggingTime GET,
  managedObjectClass GET,
  managedObjectInstance GET,
  eventType GET,
  eventTime GET,
  eventInformation GET;;
eventLogRecord MANAGED OBJECT CLASS
 DERIVED FROM top;
 CHARACTERIZED BY eventLogRecordPackage;
REGISTERED AS {2 999 9 3 5};

actualClass MANAGED OBJECT CLASS
 DERIVED FROM top;
REGISTERED AS {2 999 9 3 42};

-- Name bindings, 2.999.9.6

eventForwardingDiscriminator-system NAME BINDING
 SUBORDINATE OBJECT CLASS eventForwardingDiscriminator;
 NAMED BY SUPERIOR OBJECT CLASS system AND SUBCLASSES;
 WITH ATTRIBUTE discriminatorId;
 CREATE WITH-REFERENCE-OBJECT, WITH-AUTOMATIC-INSTANCE-NAMING;
 DELETE;
REGISTERED AS {2 999 9 6 1};

log-system NAME BINDING
 SUBORDINATE OBJECT CLASS log;
 NAMED BY SUPERIOR OBJECT CLASS system AND SUBCLASSES;
 WITH ATTRIBUTE logId;
 CREATE WITH-REFERENCE-OBJECT, WITH-AUTOMATIC-INSTANCE-NAMING;
 DELETE DELETES-CONTAINED-OBJECTS;
REGISTERED AS {2 999 9 6 2};

eventLogRecord-log NAME BINDING
 SUBORDINATE OBJECT CLASS eventLogRecord;
 NAMED BY SUPERIOR OBJECT CLASS log AND SUBCLASSES;
 WITH ATTRIBUTE logRecordId;
 DELETE;
REGISTERED AS {2 999 9 6 3};
";
